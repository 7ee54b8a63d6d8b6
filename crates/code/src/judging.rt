// What every call judges of the words and the memory that it is lent.
ghost use Rattle.std.specs.Prelude.{◌≡◌, ◌<◌, ◌≤◌, length, OnOk, All};
ghost use Rattle.code.specs.Calls.{judged};

use crate::CodeFault;
use crate::words::first_outside;

// Whether the word has `size` symbols, each below `limit`, and there is room for what is wanted.
#[tactic(auto, using(crate::proofs::Outside::none_outside))]
pub(crate) fn judge(
    size: usize,
    limit: u16,
    word: &[u16],
    room: usize,
    wanted: usize,
) -> Result<(), CodeFault>
    requires { size ≤ 255 }
    ensures answer { result ≡ judged size limit word.now room wanted tt }
    ensures passed { OnOk result ((length word.now ≡ size) × (wanted ≤ room)) }
    ensures inside { OnOk result (All (λ x. x < limit) word.now) }
{
    if word.len() != size {
        return Err(CodeFault::WordLength);
    }
    if let Some(place) = first_outside(limit, word) {
        // no loss, since no word is longer than 255; there is no `From`
        return Err(CodeFault::Symbol(place as u32));
    }
    if room < wanted {
        return Err(CodeFault::Room);
    }
    Ok(())
}
