//! The line of how an update ended.
ghost use Rattle.std.specs.Prelude.{◌≡◌, ◌≤◌, ◌++◌, length};
ghost use Rattle.arrayvec.specs.ArrayVec.{array_vec_len};
ghost use Rattle.hex.specs.Hex.{encode_lower};
ghost use Rattle.key_state.specs.Outcome.{ending_of};
ghost use Rattle.key_state.specs.OutcomeLine.{clash_words, ending_words, outcome_line};

use crate::Outcome;
use poke_base::{CodeBytes, Line, put_bytes, put_dec, put_hex, put_text};
use poke_batch::Clash;

/// `update U` and how it ended: `done N`, `refused count COUNT`, or `refused clash ADDR FOUND EXPECTED`. Updates are
/// counted from 1.
#[tactic(auto, using(crate::proofs::ShortNumbers::outcome_room))]
pub fn outcome_line(update: u32, outcome: &Outcome) -> Line
    ensures { result.items ≡ outcome_line update (ending_of outcome.now) }
{
    let mut line = Line::new();
    put_text(&mut line, b"update ");
    put_dec(&mut line, u64::from(update));
    put_text(&mut line, b" ");
    put_ending(&mut line, outcome);
    put_text(&mut line, b"\n");
    line
}

/// Adds how an update ended to the line.
#[tactic(auto, using(crate::proofs::ShortNumbers::outcome_room))]
fn put_ending(line: &mut Line, outcome: &Outcome)
    requires { array_vec_len line.old ≤ 18 }
    ensures words { line.new.items ≡ line.old.items ++ ending_words (ending_of outcome.now) }
    ensures short { length (ending_words (ending_of outcome.now)) ≤ 68 }
{
    match outcome {
        Outcome::Done(sites) => {
            put_text(line, b"done ");
            put_dec(line, u64::from(*sites));
        }
        Outcome::Count(count) => {
            put_text(line, b"refused count ");
            put_dec(line, u64::from(*count));
        }
        Outcome::Clash(clash) => {
            put_text(line, b"refused clash ");
            put_clash(line, clash);
        }
    }
}

/// Adds a clash to the line: where it is, what the site holds, and what was expected there.
#[tactic(auto, using(crate::proofs::ShortNumbers::outcome_room))]
fn put_clash(line: &mut Line, clash: &Clash)
    requires { array_vec_len line.old ≤ 32 }
    ensures words { line.new.items ≡ line.old.items ++ clash_words clash.now.at clash.now.found.items clash.now.expected.items }
    ensures short { length (clash_words clash.now.at clash.now.found.items clash.now.expected.items) ≤ 54 }
{
    put_hex(line, clash.at);
    put_text(line, b" ");
    put_code(line, &clash.found);
    put_text(line, b" ");
    put_code(line, &clash.expected);
}

/// Adds the bytes of an instruction to the line.
#[tactic(auto, using(crate::proofs::ShortNumbers::outcome_room))]
fn put_code(line: &mut Line, code: &CodeBytes)
    requires { array_vec_len line.old ≤ 78 }
    ensures added { line.new.items ≡ line.old.items ++ encode_lower code.now.items }
    ensures short { length (encode_lower code.now.items) ≤ 18 }
{
    put_bytes(line, code);
}
