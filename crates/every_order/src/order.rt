// Whether the lent list is as an answer says.
use crate::contents::Contents;
use crate::rules::{Orders, Point};
use board::Serial;

// Whether a list is a failing order: each the serial of an open duty that may come next, and all permitted in
// turn except the last, which is not.
pub(crate) fn is_failing(s: &[u8], contents: &Contents, list: &[u32]) -> bool {
    let orders = Orders { contents, by: None };
    let mut point = Point::start(s);
    let mut stuck = false;
    for serial in list {
        let Some((place, duty)) = contents.with_serial(Serial(*serial)) else {
            return false;
        };
        if stuck | !orders.may_come_next(&point, place, duty) {
            return false;
        }
        stuck = !orders.permit(&point, duty);
        point = point.after(place, duty);
    }
    stuck
}

// Whether a list would differ if each duty were named by its place, from 1 on.
pub(crate) fn places_differ(contents: &Contents, list: &[u32]) -> bool {
    list.iter().any(|serial| {
        let found = contents.with_serial(Serial(*serial));
        found.is_none_or(|(place, _)| Some(place) != (*serial as usize).checked_sub(1))
    })
}
