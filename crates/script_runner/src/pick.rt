//! What may be chosen.
ghost use Rattle.std.specs.Prelude.{◌≡◌, ◌≤◌, ◌<◌, ◌+◌, ◌++◌, map};
ghost use Rattle.arrayvec.specs.ArrayVec.{array_vec_len};
ghost use Rattle.script_runner.specs.Choosing.{choice_of, chosen_of};

use arrayvec::ArrayVec;

/// What is chosen as the next event, before the bytes of a fetch are picked. A processor is given by its number.
#[derive(Clone, Copy, Debug, Default, PartialEq, Eq)]
pub enum Pick {
    #[default]
    Begin,
    Write,
    Request,
    Return,
    Take(u8),
    Plain(u8),
    /// A processor at a patched site fetches.
    Fetch(u8),
    Handle(u8),
    Tick(u8),
}

/// What may come: the patch's event, and for each of 16 processors its taking of a request and its turn.
pub type Picks = ArrayVec<Pick, 33>;

/// Adds what may come, if it does.
#[tactic(auto, using(crate::proofs::Picked::one_more_pick))]
pub fn push_some(picks: &mut Picks, pick: Option<Pick>)
    requires { array_vec_len picks.old < 33 }
    ensures added { map choice_of picks.new.items ≡ map choice_of picks.old.items ++ chosen_of pick }
    ensures few { array_vec_len picks.new ≤ array_vec_len picks.old + 1 }
{
    if let Some(pick) = pick {
        picks.push(pick);
    }
}
