// The walk of every allowed order of a small board, by the true rules or by a shortcut.
use crate::contents::Contents;
use crate::rules::{Orders, Point};
use crate::shortcuts::Shortcut;

// What a walk met: how many orders, and how many of them got stuck at a duty that is not permitted.
#[derive(Clone, Copy)]
pub(crate) struct Met {
    pub orders: u32,
    pub stuck: u32,
}

impl Met {
    // No order.
    const NONE: Met = Met {
        orders: 0,
        stuck: 0,
    };

    // One order to its end.
    const WALKED: Met = Met {
        orders: 1,
        stuck: 0,
    };

    // One order that got stuck.
    const STUCK: Met = Met {
        orders: 1,
        stuck: 1,
    };

    // Both walks together.
    fn and(self, other: Met) -> Met {
        Met {
            orders: self.orders.saturating_add(other.orders),
            stuck: self.stuck.saturating_add(other.stuck),
        }
    }
}

impl<'a> Orders<'a> {
    // Walk every allowed order from a point with so many duties left: do each duty that may come next and
    // then walk the rest in the same way. An order that gets stuck is not followed further.
    fn walk_from(&self, point: &Point, left: usize) -> Met {
        if left == 0 {
            return Met::WALKED;
        }
        let mut met = Met::NONE;
        for (place, duty) in self.contents.duties().iter().enumerate() {
            if self.may_come_next(point, place, duty) {
                let more = if self.permit(point, duty) {
                    self.walk_from(&point.after(place, duty), left - 1)
                } else {
                    Met::STUCK
                };
                met = met.and(more);
            }
        }
        met
    }
}

// Walk every allowed order of a board file.
pub(crate) fn walk(s: &[u8], contents: &Contents, by: Option<Shortcut>) -> Met {
    let orders = Orders { contents, by };
    orders.walk_from(&Point::start(s), contents.duties().len())
}
