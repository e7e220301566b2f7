// The fault of one record of a board file: 5 where a field is outside its range or spare is not zero, then 7
// where its start is after its end, then 6 where it is not above the one before it; 0 is no fault.
ghost use Rattle.std.specs.Prelude.{◌≡◌, ◌<◌};
ghost use Rattle.board.specs.Refusals.{number_answered};
ghost use Rattle.file.specs.Records.{fault_of, is_above};

use crate::fields::Record;
use crate::laid::Laid;
use board::Refusal;

// The fault of the record of this number in its part: the first record has none before it.
pub(crate) fn fault_at<T: Record>(file: &Laid, i: usize) -> Result<(), Refusal>
    requires { i < T.size file.now.counts }
    ensures { let s = file.now.bytes.now in
        number_answered result
        ≡ fault_of (T.fits s i) (T.window (T.said s i)) (is_above T.below (T.said s) i) }
{
    let record = T::read(file, i);
    if !record.fits(file, i) {
        return Err(Refusal::Field);
    }
    if !record.window_fits() {
        return Err(Refusal::Window);
    }
    if (i > 0) && !T::read(file, i - 1).is_below(record) {
        return Err(Refusal::NotAbove);
    }
    Ok(())
}
