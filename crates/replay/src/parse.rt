// The lines of answers.txt that are still to be read. Where something else stands they are lost, and stay so: a number or a net read of them is 0, a text is empty.
ghost use Rattle.std.specs.Prelude.{◌<◌, IfSome, length};

use rules::{Net, Trit};

const LF: u8 = b'\n';

// Room for the longest list of nets.
pub(crate) const LIST_MAX: usize = rules::ROWS_MAX * rules::RULES_MAX;

// A longer number is none of the file's: it is not read further.
const NUMBER_MAX: usize = 999999;

// The net that the last mux drives, counted from cell 0 on.
const CELL_LAST: usize = (rules::LAST_NET - rules::FIRST_CELL) as usize;

// No rest where they are lost.
#[derive(Clone, Copy)]
pub(crate) struct Lines<'a> {
    rest: Option<&'a [u8]>,
}

impl<'a> Lines<'a> {
    // Comments stand at the top only.
    pub(crate) fn new(file: &'a [u8]) -> Lines<'a> {
        let mut rest = file;
        while let [b'#', ..] = rest {
            let Some(after) = after_line(rest) else {
                return Lines { rest: None };
            };
            rest = after;
        }
        Lines { rest: Some(rest) }
    }

    pub(crate) fn lose(&mut self) {
        self.rest = None;
    }

    pub(crate) fn len(&self) -> usize {
        self.rest.map_or(0, |rest| rest.len())
    }

    // All was read, and nothing lost.
    pub(crate) fn is_done(&self) -> bool {
        self.rest.is_some_and(|rest| rest.is_empty())
    }

    pub(crate) fn begins(&self, letter: u8) -> bool {
        self.rest.is_some_and(|rest| rest.starts_with(&[letter]))
    }

    pub(crate) fn skip(&mut self, b: u8) {
        self.rest = self.rest.and_then(|rest| rest.strip_prefix(&[b]));
    }

    // The letter of a line with a part after it.
    pub(crate) fn letter(&mut self, letter: u8) {
        self.skip(letter);
        self.skip(b' ');
    }

    pub(crate) fn end(&mut self) {
        self.skip(LF);
    }

    // Past the next LF, whatever stands before it.
    pub(crate) fn next_line(&mut self) {
        self.rest = self.rest.and_then(after_line);
    }

    // A zero stands alone. Another number at the end of the file is read, and what should follow it is lost.
    pub(crate) fn number(&mut self) -> usize {
        if self.begins(b'0') {
            self.skip(b'0');
            return 0;
        }
        let digits = self.digits();
        digits.iter().fold(0, |value, b| with_digit(value, *b))
    }

    // Up to what is no digit, where a digit stands.
    fn digits(&mut self) -> &'a [u8] {
        let rest = self.rest.unwrap_or(&[]);
        let Some(n) = rest.iter().position(|b| !b.is_ascii_digit()) else {
            self.lose();
            return rest;
        };
        let (digits, after) = rest.split_at(n);
        self.rest = (n > 0).then_some(after);
        digits
    }

    // The number after a line's letter.
    pub(crate) fn numbered(&mut self, letter: u8) -> usize {
        self.letter(letter);
        self.number()
    }

    // The next number of a line.
    pub(crate) fn more(&mut self) -> usize {
        self.skip(b' ');
        self.number()
    }

    fn next(&mut self) -> Option<u8> {
        let (first, rest) = self.rest?.split_first()?;
        self.rest = Some(rest);
        Some(*first)
    }

    // A net as the number that stands for it in lists.
    pub(crate) fn code(&mut self) -> u16 {
        match self.next() {
            Some(b'0') => 0,
            Some(b'1') => 1,
            Some(b'X') => 2,
            Some(b'%') => self.cell(),
            _ => {
                self.lose();
                0
            }
        }
    }

    fn cell(&mut self) -> u16 {
        let cell = self.number();
        if cell > CELL_LAST {
            self.lose();
            return 0;
        }
        rules::FIRST_CELL + cell as u16
    }

    pub(crate) fn net(&mut self) -> Net {
        Net::from(self.code())
    }

    // A cell stands for no trit, and is read as X.
    pub(crate) fn trit(&mut self) -> Trit {
        match self.net() {
            Net::Const(trit) => trit,
            Net::Cell(_) => Trit::Undef,
        }
    }

    // A list goes on in the next line after a plus.
    fn between(&mut self) {
        if self.begins(LF) {
            self.end();
            self.letter(b'+');
        } else {
            self.skip(b' ');
        }
    }

    // So many nets, in the room that is lent; a longer list is lost.
    pub(crate) fn list<'b>(&mut self, room: &'b mut [u16], count: usize) -> &'b [u16] {
        let Some(codes) = room.get_mut(..count) else {
            self.lose();
            return &[];
        };
        for code in codes.iter_mut() {
            self.between();
            *code = self.code();
        }
        codes
    }

    // A text whose length is known.
    pub(crate) fn body(&mut self, len: usize) -> &'a [u8] {
        let Some((text, rest)) = self.rest.and_then(|rest| rest.split_at_checked(len)) else {
            self.lose();
            return &[];
        };
        self.rest = Some(rest);
        self.end();
        text
    }

    pub(crate) fn text(&mut self, letter: u8) -> &'a [u8] {
        let len = self.numbered(letter);
        self.end();
        self.body(len)
    }
}

fn with_digit(value: usize, b: u8) -> usize {
    if value > NUMBER_MAX {
        return value;
    }
    value * 10 + usize::from(b.saturating_sub(b'0') % 10)
}

// What follows the next LF.
fn after_line(text: &[u8]) -> Option<&[u8]>
    ensures { IfSome result (λ after. length after.now < length text.now) }
{
    let end = text.iter().position(|b| *b == LF)?;
    Some(&text[end + 1..])
}
