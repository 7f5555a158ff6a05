//! The commands, as the words after the program's name give them.
ghost use Rattle.std.specs.Prelude.{◌≡◌, IfSome, option_map};
ghost use Rattle.poke_tool.specs.Words.{block_count, one_file, turn_count, two_files, words_of};

use poke_base::read_dec;

/// A command, with the words that it was given.
#[derive(Clone, Copy, Debug, PartialEq, Eq)]
pub enum Command<'a> {
    /// Prints the poke of the one change that a file asks for.
    Plan {
        file: &'a str,
    },
    /// Prints the entries of a module's tables.
    Show {
        module: &'a str,
    },
    /// Prints the text and the sites of a module that is accepted.
    Check {
        module: &'a str,
    },
    /// Writes a module with n blocks, 10 to 1,000.
    Make {
        blocks: u32,
        module: &'a str,
    },
    /// Prints how the updates of a script end, and what the sites of its module then hold.
    Wants {
        module: &'a str,
        script: &'a str,
    },
    /// Runs a script by a seed: prints the trace, and writes the journal.
    Run {
        module: &'a str,
        script: &'a str,
        journal: &'a str,
        seed: u64,
    },
    /// Prints the trace of a journal, or the first line of it that can't have happened.
    Replay {
        module: &'a str,
        script: &'a str,
        journal: &'a str,
    },
    /// Prints the counts of the run of a module with n blocks, 10 to 1,000, by a seed.
    Bench {
        blocks: u32,
        seed: u64,
    },
    /// Runs a script on threads, each processor for so many turns, 1 to 100,000, by a seed: prints how the updates end, what
    /// each processor did, and what the sites then hold.
    Live {
        module: &'a str,
        script: &'a str,
        turns: u32,
        seed: u64,
    },
}

impl<'a> Command<'a> {
    ghost use Rattle.poke_commands.specs.Command.{Replay, Wants};
    ghost use Rattle.poke_tool.specs.Words.{IsInRange, bench_row, live_row, make_row, row, row_of, run_row, three_files, two_files, words_of};

    /// The command that the words are. `None` exactly for all other words.
    pub fn read(words: &'a [String]) -> Option<Command<'a>>
        ensures row { option_map row result ≡ row_of (words_of words.now) }
        ensures in_range { IfSome result IsInRange }
    {
        let (name, rest) = words.split_first()?;
        match name.as_str() {
            "plan" => Some(Command::Plan {
                file: one_file(rest)?,
            }),
            "show" => Some(Command::Show {
                module: one_file(rest)?,
            }),
            "check" => Some(Command::Check {
                module: one_file(rest)?,
            }),
            "make" => Command::make(rest),
            "wants" => Command::wants(rest),
            "run" => Command::run(rest),
            "replay" => Command::replay(rest),
            "bench" => Command::bench(rest),
            "live" => Command::live(rest),
            _ => None,
        }
    }

    /// `make N FILE`
    fn make(rest: &'a [String]) -> Option<Command<'a>>
        ensures row { option_map row result ≡ make_row (words_of rest.now) }
        ensures in_range { IfSome result IsInRange }
    {
        match rest {
            [n, module] => {
                let blocks = block_count(n)?;
                Some(Command::Make {
                    blocks,
                    module: module.as_str(),
                })
            }
            _ => None,
        }
    }

    /// `wants MODULE SCRIPT`
    fn wants(rest: &'a [String]) -> Option<Command<'a>>
        ensures row { option_map row result ≡ option_map (λ files. Wants files.0 files.1) (two_files (words_of rest.now)) }
        ensures in_range { IfSome result IsInRange }
    {
        let (module, script) = two_files(rest)?;
        Some(Command::Wants { module, script })
    }

    /// `run MODULE SCRIPT JOURNAL SEED`
    fn run(rest: &'a [String]) -> Option<Command<'a>>
        ensures row { option_map row result ≡ run_row (words_of rest.now) }
        ensures in_range { IfSome result IsInRange }
    {
        match rest {
            [module, script, journal, seed] => {
                let seed = read_dec(seed.as_bytes())?;
                Some(Command::Run {
                    module: module.as_str(),
                    script: script.as_str(),
                    journal: journal.as_str(),
                    seed,
                })
            }
            _ => None,
        }
    }

    /// `replay MODULE SCRIPT JOURNAL`
    fn replay(rest: &'a [String]) -> Option<Command<'a>>
        ensures row { option_map row result ≡ option_map (λ files. Replay files.0 files.1 files.2) (three_files (words_of rest.now)) }
        ensures in_range { IfSome result IsInRange }
    {
        match rest {
            [module, script, journal] => Some(Command::Replay {
                module: module.as_str(),
                script: script.as_str(),
                journal: journal.as_str(),
            }),
            _ => None,
        }
    }

    /// `bench N SEED`
    fn bench(rest: &'a [String]) -> Option<Command<'a>>
        ensures row { option_map row result ≡ bench_row (words_of rest.now) }
        ensures in_range { IfSome result IsInRange }
    {
        match rest {
            [n, seed] => {
                let blocks = block_count(n)?;
                let seed = read_dec(seed.as_bytes())?;
                Some(Command::Bench { blocks, seed })
            }
            _ => None,
        }
    }

    /// `live MODULE SCRIPT TURNS SEED`
    fn live(rest: &'a [String]) -> Option<Command<'a>>
        ensures row { option_map row result ≡ live_row (words_of rest.now) }
        ensures in_range { IfSome result IsInRange }
    {
        match rest {
            [module, script, turns, seed] => {
                let turns = turn_count(turns)?;
                let seed = read_dec(seed.as_bytes())?;
                Some(Command::Live {
                    module: module.as_str(),
                    script: script.as_str(),
                    turns,
                    seed,
                })
            }
            _ => None,
        }
    }
}

/// The only two words after a command's name, its files. `None` exactly where there are fewer or more.
fn two_files(rest: &[String]) -> Option<(&str, &str)>
    ensures { option_map (λ files. (files.0.now, files.1.now)) result ≡ two_files (words_of rest.now) }
{
    match rest {
        [file, second] => Some((file.as_str(), second.as_str())),
        _ => None,
    }
}

/// The only word after a command's name, its file. `None` exactly where there is none or more than one.
fn one_file(rest: &[String]) -> Option<&str>
    ensures { option_map (λ file. file.now) result ≡ one_file (words_of rest.now) }
{
    match rest {
        [file] => Some(file.as_str()),
        _ => None,
    }
}

/// A number of blocks, 10 to 1,000. `None` exactly for all other words.
fn block_count(word: &str) -> Option<u32>
    ensures { result ≡ block_count word.now }
{
    let n = read_dec(word.as_bytes())?;
    if (10..=1_000).contains(&n) {
        Some(n as u32)
    } else {
        None
    }
}

/// A number of turns, 1 to 100,000. `None` exactly for all other words.
fn turn_count(word: &str) -> Option<u32>
    ensures { result ≡ turn_count word.now }
{
    let n = read_dec(word.as_bytes())?;
    if (1..=100_000).contains(&n) {
        Some(n as u32)
    } else {
        None
    }
}
