//! The state that a word holds, at run time.
ghost use Rattle.std.specs.Prelude.{◌≡◌, ◌<◌, Some};
ghost use Rattle.octet_state.specs.Words.{packed_state, unpacked_state};
ghost use Rattle.octet_state.specs.Steps.{state_in};

use octet_model::MAX_THREADS;
use octet_state::StateWord;

/// The state that a word holds: there is one. Mostly it is write-exclusive of the thread itself, which
/// one comparison tells.
#[inline(always)]
pub(crate) fn state_in(word: u64, me: u8) -> StateWord
    requires packed { unpacked_state word ≡ Some (state_in (unpacked_state word)) }
    requires thread { me < MAX_THREADS }
    ensures state { result ≡ state_in (unpacked_state word) }
    ensures back { packed_state result ≡ word }
{
    let own = StateWord::WrEx { owner: me };
    if word == own.pack() {
        return own;
    }
    match StateWord::unpack(word) {
        Some(state) => state,
        None => StateWord::WrEx { owner: 0 },
    }
}
