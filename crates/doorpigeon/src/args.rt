// What the program is asked, from its arguments.
use crate::words;
use rules::{Net, Trit};
use std::env::{Env, FillError};
use std::fmt;

// The longest argument.
pub const WORD_MAX: usize = 4096;

// An argument by its place: its bytes are asked for again where they are needed.
#[derive(Clone, Copy)]
pub struct Argument(usize);

impl Argument {
    pub(crate) fn bytes<'a>(self, rt: &impl Env, buf: &'a mut [u8]) -> &'a [u8] {
        match rt.arg(self.0, buf) {
            Ok(n) => &buf[..n],
            Err(_) => b"",
        }
    }
}

// Where a text is.
#[derive(Clone, Copy)]
pub enum Source {
    Input,
    File(Argument),
}

impl Source {
    fn named(argument: Argument, word: &[u8]) -> Source {
        match word {
            b"-" => Source::Input,
            _ => Source::File(argument),
        }
    }
}

// What is asked of one matrix.
#[derive(Clone, Copy, PartialEq, Eq)]
pub enum Query {
    Read,
    Normal,
    Enable,
    Outputs,
    Tree,
    Muxes,
    Eval,
}

// How a tree is made: its enable, and how many entries of the node store it may take.
#[derive(Clone, Copy)]
pub struct Plan {
    pub enable: Net,
    pub entries: usize,
}

#[derive(Clone, Copy)]
pub enum Asked {
    Nothing,
    Help,
    Merge {
        at: Net,
        child: Source,
        parent: Source,
    },
    Of {
        query: Query,
        file: Source,
        plan: Plan,
    },
}

#[derive(Clone, Copy, PartialEq, Eq)]
enum Command {
    Help,
    Merge,
    Of(Query),
}

impl Command {
    fn named(word: &[u8]) -> Option<Command> {
        match word {
            b"read" => Some(Command::Of(Query::Read)),
            b"normal" => Some(Command::Of(Query::Normal)),
            b"enable" => Some(Command::Of(Query::Enable)),
            b"outputs" => Some(Command::Of(Query::Outputs)),
            b"tree" => Some(Command::Of(Query::Tree)),
            b"muxes" => Some(Command::Of(Query::Muxes)),
            b"eval" => Some(Command::Of(Query::Eval)),
            b"merge" => Some(Command::Merge),
            b"help" => Some(Command::Help),
            _ => None,
        }
    }

    // Help is given whatever else is said.
    fn uses(self, flag: Flag) -> bool {
        match self {
            Command::Help | Command::Of(Query::Eval) => true,
            Command::Of(Query::Tree | Query::Muxes) => flag != Flag::Setting,
            Command::Of(Query::Enable) => flag == Flag::Enable,
            _ => false,
        }
    }
}

// The options -e, -s and -v.
#[derive(Clone, Copy, PartialEq, Eq)]
pub enum Flag {
    Enable,
    Store,
    Setting,
}

// What is wrong with the arguments. Its text stands after the word that it is about, where it is about one.
#[derive(Clone, Copy)]
pub enum Wrong {
    TooLong,
    NoSuchCommand(Argument),
    NoSuchOption(Argument),
    NotUsed(Argument, Flag),
    NoValue,
    Value(Flag),
    MergeNet,
    MergeWords,
    MergeFiles,
    Files,
}

impl Wrong {
    pub(crate) fn word(self) -> Option<Argument> {
        match self {
            Wrong::NoSuchCommand(word) | Wrong::NoSuchOption(word) | Wrong::NotUsed(word, _) => {
                Some(word)
            }
            _ => None,
        }
    }
}

impl fmt::Display for Wrong {
    fn fmt<W: fmt::Write>(&self, f: &mut fmt::Formatter<W>) -> fmt::Result {
        f.write_str(match self {
            Wrong::TooLong => "an argument is too long: write at most 4096 bytes",
            Wrong::NoSuchCommand(_) => ": no such command: write doorpigeon help",
            Wrong::NoSuchOption(_) => ": no such option: write doorpigeon help",
            Wrong::NotUsed(_, Flag::Enable) => {
                " does not use -e: it is for enable, tree, muxes and eval"
            }
            Wrong::NotUsed(_, Flag::Store) => " does not use -s: it is for tree, muxes and eval",
            Wrong::NotUsed(_, Flag::Setting) => " does not use -v: it is for eval",
            Wrong::NoValue => "the last option has no value: write doorpigeon help",
            Wrong::Value(Flag::Enable) => "-e wants a net: write -e 1, -e 0, -e X or -e %5",
            Wrong::Value(Flag::Store) => "-s wants a number of entries: write -s 1024",
            Wrong::Value(Flag::Setting) => {
                "-v wants nets up to %9999 and their values: write -v %0=1,%3=X"
            }
            Wrong::MergeNet => "merge wants a net: write merge %10 CHILD FILE",
            Wrong::MergeWords => "merge wants a net and a file: write merge NET CHILD FILE",
            Wrong::MergeFiles => "too many files: write merge NET CHILD FILE",
            Wrong::Files => "too many files: write one, or - for standard input",
        })
    }
}

// What the arguments so far have said.
#[derive(Clone, Copy, Default)]
struct Said {
    command: Option<(Command, Argument)>,
    // The option whose value is the next argument.
    waits: Option<Flag>,
    enable: Option<Net>,
    entries: Option<usize>,
    has_setting: bool,
    at: Option<Net>,
    child: Option<Source>,
    file: Option<Source>,
}

impl Said {
    fn is_help(&self) -> bool {
        matches!(self.command, Some((Command::Help, _)))
    }

    fn has(&self, flag: Flag) -> bool {
        match flag {
            Flag::Enable => self.enable.is_some(),
            Flag::Store => self.entries.is_some(),
            Flag::Setting => self.has_setting,
        }
    }

    // An option may be one of a command still to come.
    fn fit(&self, flag: Flag) -> Result<(), Wrong> {
        match self.command {
            Some((command, word)) if !command.uses(flag) => Err(Wrong::NotUsed(word, flag)),
            _ => Ok(()),
        }
    }

    fn begin(&mut self, argument: Argument, word: &[u8]) -> Result<(), Wrong> {
        let Some(command) = Command::named(word) else {
            return Err(Wrong::NoSuchCommand(argument));
        };
        self.command = Some((command, argument));
        for flag in [Flag::Enable, Flag::Store, Flag::Setting] {
            if self.has(flag) {
                self.fit(flag)?;
            }
        }
        Ok(())
    }

    fn option(&mut self, flag: Flag) -> Result<(), Wrong> {
        self.waits = Some(flag);
        self.fit(flag)
    }

    fn value(&mut self, flag: Flag, word: &[u8], trits: &mut [u8]) -> Result<(), Wrong> {
        let wrong = Wrong::Value(flag);
        match flag {
            Flag::Enable => self.enable = Some(words::net_of(word).ok_or(wrong)?),
            Flag::Store => self.entries = Some(words::number_of(word).ok_or(wrong)?),
            Flag::Setting => {
                words::set_all(word, trits).ok_or(wrong)?;
                self.has_setting = true;
            }
        }
        Ok(())
    }

    // The net, the child's file, the parent's file.
    fn merge(&mut self, argument: Argument, word: &[u8]) -> Result<(), Wrong> {
        if self.at.is_none() {
            self.at = Some(words::net_of(word).ok_or(Wrong::MergeNet)?);
        } else if self.child.is_none() {
            self.child = Some(Source::named(argument, word));
        } else if self.file.is_none() {
            self.file = Some(Source::named(argument, word));
        } else {
            return Err(Wrong::MergeFiles);
        }
        Ok(())
    }

    fn file(&mut self, argument: Argument, word: &[u8]) -> Result<(), Wrong> {
        if self.file.is_some() {
            return Err(Wrong::Files);
        }
        self.file = Some(Source::named(argument, word));
        Ok(())
    }

    fn word(&mut self, argument: Argument, word: &[u8]) -> Result<(), Wrong> {
        match (word, self.command) {
            (b"-h" | b"--help", _) => {
                self.command = Some((Command::Help, argument));
                Ok(())
            }
            (b"-e", _) => self.option(Flag::Enable),
            (b"-s", _) => self.option(Flag::Store),
            (b"-v", _) => self.option(Flag::Setting),
            ([b'-', _, ..], _) => Err(Wrong::NoSuchOption(argument)),
            (_, None) => self.begin(argument, word),
            (_, Some((Command::Merge, _))) => self.merge(argument, word),
            _ => self.file(argument, word),
        }
    }

    fn hear(&mut self, argument: Argument, word: &[u8], trits: &mut [u8]) -> Result<(), Wrong> {
        match self.waits.take() {
            Some(flag) => self.value(flag, word, trits),
            None => self.word(argument, word),
        }
    }

    // Nothing is left out at the end.
    fn end(self) -> Result<Asked, Wrong> {
        if self.waits.is_some() {
            return Err(Wrong::NoValue);
        }
        let file = self.file.unwrap_or(Source::Input);
        match (self.command, self.at, self.child) {
            (None, _, _) => Ok(Asked::Nothing),
            (Some((Command::Help, _)), _, _) => Ok(Asked::Help),
            (Some((Command::Merge, _)), Some(at), Some(child)) => Ok(Asked::Merge {
                at,
                child,
                parent: file,
            }),
            (Some((Command::Merge, _)), _, _) => Err(Wrong::MergeWords),
            (Some((Command::Of(query), _)), _, _) => Ok(Asked::Of {
                query,
                file,
                plan: Plan {
                    enable: self.enable.unwrap_or(Net::Const(Trit::One)),
                    entries: self.entries.unwrap_or(rules::NODES_MAX),
                },
            }),
        }
    }
}

// The trits that are set are put into those lent. Nothing is looked at after a wrong argument, or after help. An argument is asked for by its place.
// In a frame of its own, which is gone before a command begins.
#[inline(never)]
pub(crate) fn parse(rt: &impl Env, trits: &mut [u8]) -> Result<Asked, Wrong> {
    let mut said = Said::default();
    let mut buf = [0u8; WORD_MAX];
    for i in 1..usize::MAX {
        match rt.arg(i, &mut buf) {
            Ok(n) => said.hear(Argument(i), &buf[..n], trits)?,
            Err(FillError::TooLong) => return Err(Wrong::TooLong),
            Err(FillError::NotPresent) => break,
        }
        if said.is_help() {
            break;
        }
    }
    said.end()
}
