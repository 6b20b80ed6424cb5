// Texts that are no printed matrix: 11, and the first line that no printed matrix with the same earlier lines has.
use crate::reads;
use std::io;

// More than any line of a printed matrix has.
const LONG: usize = 10000;

pub(crate) fn all(rt: &impl Print) -> io::Result<()> {
    reads::each(rt, &BAD_HEADS)?;
    reads::each(rt, &BAD_MARKS)?;
    reads::each(rt, &BAD_NETS)?;
    reads::each(rt, &BAD_BYTES)?;
    reads::each(rt, &BAD_SPACES)?;
    reads::each(rt, &BAD_RULES)?;
    reads::each(rt, &BAD_RULE_NETS)?;
    reads::each(rt, &BAD_TRITS)?;
    reads::each(rt, &BAD_GROUPS)?;
    reads::each(rt, &BAD_LINES)?;
    long_lines(rt)
}

// Line 1.
const BAD_HEADS: [(&str, &[u8]); 7] = [
    ("empty text", b""),
    ("a line feed", b"\n"),
    ("[]", b"[]:\n"),
    ("two spaces and no net", b"[  ]:\n"),
    ("a CR after [ ]", b"[ ]:\r\n"),
    ("a space after [ ]", b"[ ]: \n"),
    ("a space before [ ]", b" [ ]:\n"),
];

// Line 1.
const BAD_MARKS: [(&str, &[u8]); 7] = [
    ("[ ] without a colon", b"[ ]\n"),
    ("[ ]: without LF", b"[ ]:"),
    ("[ without an end", b"[\n"),
    ("a net without a space before ]", b"[ %0]:\n"),
    ("a net without a space after [", b"[%0 ]:\n"),
    ("two spaces between nets", b"[ %1  %0 ]:\n"),
    ("CRLF line ends", b"[ %0 ]:\r\n  0 => (empty)\r\n"),
];

// Line 1.
const BAD_NETS: [(&str, &[u8]); 8] = [
    ("column %00", b"[ %00 ]:\n"),
    ("column %01", b"[ %01 ]:\n"),
    ("column %10000", b"[ %10000 ]:\n"),
    (
        "column %99999999999999999999",
        b"[ %99999999999999999999 ]:\n",
    ),
    ("column % without a number", b"[ % ]:\n"),
    ("column x", b"[ x ]:\n"),
    ("column 2", b"[ 2 ]:\n"),
    ("column %-1", b"[ %-1 ]:\n"),
];

// Bytes that no printed matrix has.
const BAD_BYTES: [(&str, &[u8]); 7] = [
    ("a NUL as the text", b"\0"),
    ("a NUL in line 1", b"[ %0\0 ]:\n"),
    ("byte 255 in line 1", b"[ \xff ]:\n"),
    ("a NUL after line 1", b"[ %0 ]:\n\0"),
    ("byte 128 in line 2", b"[ %0 ]:\n  \x80 => (empty)\n"),
    ("a NUL after a row", b"[ %0 ]:\n  0 => (empty)\n\0\n"),
    ("a tab for a space", b"[ %0 ]:\n  0\t=> (empty)\n"),
];

// Line 2.
const BAD_SPACES: [(&str, &[u8]); 8] = [
    ("one space before the trits", b"[ %0 ]:\n 0 => %1\n"),
    ("three spaces before the trits", b"[ %0 ]:\n   0 => %1\n"),
    ("two spaces before =>", b"[ %0 ]:\n  0  => %1\n"),
    ("two spaces before a rule", b"[ %0 ]:\n  0 =>  %1\n"),
    ("two spaces between rules", b"[ %0 ]:\n  0 => %1  %2\n"),
    ("a space after the rules", b"[ %0 ]:\n  0 => %1 \n"),
    ("a space after (empty)", b"[ %0 ]:\n  0 => (empty) \n"),
    ("no space before a rule", b"[ %0 ]:\n  0 =>%1\n"),
];

// Line 2.
const BAD_RULES: [(&str, &[u8]); 8] = [
    ("=> alone", b"[ %0 ]:\n  0 =>\n"),
    ("=> and a space", b"[ %0 ]:\n  0 => \n"),
    ("%1 (empty)", b"[ %0 ]:\n  0 => %1 (empty)\n"),
    ("(empty) %1", b"[ %0 ]:\n  0 => (empty) %1\n"),
    ("(empty) (empty)", b"[ %0 ]:\n  0 => (empty) (empty)\n"),
    ("(Empty)", b"[ %0 ]:\n  0 => (Empty)\n"),
    ("rules %2 %1", b"[ %0 ]:\n  0 => %2 %1\n"),
    ("rules %1 %1", b"[ %0 ]:\n  0 => %1 %1\n"),
];

// Line 2.
const BAD_RULE_NETS: [(&str, &[u8]); 7] = [
    ("9 rules", b"[ %0 ]:\n  0 => %1 %2 %3 %4 %5 %6 %7 %8 %9\n"),
    ("rule 1", b"[ %0 ]:\n  0 => 1\n"),
    ("rule X after %1", b"[ %0 ]:\n  0 => %1 X\n"),
    ("rule %00", b"[ %0 ]:\n  0 => %00\n"),
    ("rule %01", b"[ %0 ]:\n  0 => %01\n"),
    ("rule %10000", b"[ %0 ]:\n  0 => %10000\n"),
    ("rule %65536", b"[ %0 ]:\n  0 => %65536\n"),
];

// Line 2.
const BAD_TRITS: [(&str, &[u8]); 6] = [
    ("trit x", b"[ %0 ]:\n  x => %1\n"),
    ("trit 2", b"[ %0 ]:\n  2 => %1\n"),
    ("a trit too many", b"[ %0 ]:\n  00 => %1\n"),
    ("a trit too few", b"[ %0 ]:\n   => %1\n"),
    ("a mark before 1 trit", b"[ %0 ]:\n  _0 => %1\n"),
    ("a mark after 1 trit", b"[ %0 ]:\n  0_ => %1\n"),
];

// Line 2: the mark stands after the fourth trit from the left.
const BAD_GROUPS: [(&str, &[u8]); 6] = [
    ("5 trits, no mark", b"[ %4 %3 %2 %1 %0 ]:\n  01X01 => %1\n"),
    (
        "5 trits, the mark after the first",
        b"[ %4 %3 %2 %1 %0 ]:\n  0_1X01 => %1\n",
    ),
    (
        "5 trits, two marks",
        b"[ %4 %3 %2 %1 %0 ]:\n  01X0__1 => %1\n",
    ),
    (
        "5 trits, a mark after the last",
        b"[ %4 %3 %2 %1 %0 ]:\n  01X0_1_ => %1\n",
    ),
    (
        "5 trits, a space for the mark",
        b"[ %4 %3 %2 %1 %0 ]:\n  01X0 1 => %1\n",
    ),
    (
        "4 trits, a mark after the last",
        b"[ %3 %2 %1 %0 ]:\n  01X0_ => %1\n",
    ),
];

// The first line that is wrong.
const BAD_LINES: [(&str, &[u8]); 8] = [
    ("an empty line 2", b"[ %0 ]:\n\n"),
    ("an empty line 3", b"[ %0 ]:\n  0 => %1\n\n"),
    ("a row without LF", b"[ %0 ]:\n  0 => %1"),
    ("a second row without LF", b"[ %0 ]:\n  0 => %1\n  X => %2"),
    ("a value line as line 2", b"[ %0 ]:\n[ %0 ]:\n"),
    ("a row as line 1", b"  0 => %1\n"),
    ("lines 2 and 3 wrong", b"[ %0 ]:\n  0 =>\n  1 =>\n"),
    ("lines 1 and 2 wrong", b"[ %00 ]:\n  0 =>\n"),
];

// Line 1 of 10,000 bytes, and line 2 of nearly as many.
fn long_lines(rt: &impl Print) -> io::Result<()> {
    let mut text = [b'X'; LONG];
    reads::taken(rt, "10000 bytes X", &text)?;
    text[..5].copy_from_slice(b"[ ]:\n");
    reads::taken(rt, "[ ]: and 9995 bytes X", &text)
}
