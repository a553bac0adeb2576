// Prints the line for each case of a table on standard input. A line of the table is a text with escapes: `\n`, `\t`, `\r`, `\\`, `\xHH`, and
// `\{N:TEXT\}` for N times TEXT, in which `\#` is the running number from 0. A line that starts with `#` is a comment.
#![tactic(auto)]

ghost use Rattle.std.specs.Prelude.{◌≡◌, ℕ, ◌+◌, ◌<◌, ◌≤◌, ◌++◌, length, drop, IfSome, IfOk, decimal, OnOk};
ghost use Rattle.cases.specs.Escapes.{hex_of, escaped, escape_length, unescaped};
ghost use Rattle.cases.specs.Marks.{mark_in};
ghost use Rattle.cases.specs.Repeats.{times_of, body_of, repeated, decoded};

use line::line_for;
use std::alloc::AllocError;
use std::io::{BufRead, BufReader};

// The value of a hexadecimal digit; 0 for any other byte, capitals too, so it is not the library's. The other test program has the same six lines: a
// library for them would be longer.
fn hex(digit: u8) -> u8
    ensures value { result ≡ hex_of digit }
    ensures bound { result < 16 }
{
    match digit {
        b'0'..=b'9' => digit - b'0',
        b'a'..=b'f' => digit - b'a' + 10,
        _ => 0,
    }
}

// What is left of a text after so many bytes.
fn after(text: &[u8], n: usize) -> &[u8]
    ensures { result.now ≡ drop n text.now }
{
    &text[n.min(text.len())..]
}

// The place of the first backslash before a mark; an escape of two bytes is passed over whole.
fn find_mark(text: &[u8], mark: u8) -> Option<usize>
    ensures value { result ≡ mark_in mark 0 text.now }
    ensures bound { IfSome result (λ p. p + 2 ≤ length text.now) }
{
    let mut rest = text;
    while let Some((first, tail)) = rest.split_first() {
        if *first != b'\\' {
            rest = tail;
            continue;
        }
        let (second, left) = tail.split_first()?;
        if *second == mark {
            return Some(text.len() - rest.len());
        }
        rest = left;
    }
    None
}

// Adds the byte or bytes that an escape stands for; the text begins with its backslash. Tells how long the escape is.
fn escape(out: &mut Vec<u8>, text: &[u8], round: usize) -> Result<usize, AllocError>
    ensures size { IfOk result (λ n. n ≡ escape_length text.now) }
    ensures added { OnOk result (out.new.items ≡ out.old.items ++ escaped round text.now) }
    ensures bound { IfOk result (λ n. 2 ≤ n) }
{
    if text.len() < 2 {
        return Ok(2);
    }
    let letter = text[1];
    if letter == b'x' && text.len() >= 4 {
        out.push(hex(text[2]) * 16 + hex(text[3]))?;
        return Ok(4);
    }
    match letter {
        b'n' => out.push(10)?,
        b't' => out.push(9)?,
        b'r' => out.push(13)?,
        b'\\' => out.push(b'\\')?,
        b'#' => number(out, round)?,
        _ => {}
    }
    Ok(2)
}

// Adds a number in decimal.
fn number(out: &mut Vec<u8>, n: usize) -> Result<(), AllocError>
    ensures { OnOk result (out.new.items ≡ out.old.items ++ decimal n) }
{
    let digits = n.to_string(*out.allocator())?;
    out.extend_from_slice(digits.as_bytes())
}

// Adds a text without repeats.
fn unescape(out: &mut Vec<u8>, text: &[u8], round: usize) -> Result<(), AllocError>
    ensures { OnOk result (out.new.items ≡ out.old.items ++ unescaped round text.now) }
{
    let mut rest = text;
    while let Some((first, tail)) = rest.split_first() {
        if *first == b'\\' {
            let n = escape(out, rest, round)?;
            rest = after(rest, n);
        } else {
            out.push(*first)?;
            rest = tail;
        }
    }
    Ok(())
}

// How often a repeat's text is taken, and where it begins: after the first colon.
fn head(text: &[u8]) -> (usize, usize)
    ensures times { result.0 ≡ times_of 0 text.now }
    ensures body { drop result.1 text.now ≡ body_of text.now }
    ensures bound { result.1 ≤ length text.now }
{
    let mut times: usize = 0;
    for (i, b) in text.iter().enumerate() {
        if *b == b':' {
            return (times, i + 1);
        }
        times = times.saturating_mul(10).saturating_add((*b & 15) as usize);
    }
    (times, text.len())
}

// Adds what stands between the brackets of a repeat, `N:TEXT`, N times.
fn repeat(out: &mut Vec<u8>, text: &[u8]) -> Result<(), AllocError>
    ensures { OnOk result (out.new.items ≡ out.old.items ++ repeated text.now) }
{
    let (times, from) = head(text);
    for round in 0..times {
        unescape(out, &text[from..], round)?;
    }
    Ok(())
}

// The text of a case.
fn decode(out: &mut Vec<u8>, case: &[u8]) -> Result<(), AllocError>
    ensures { OnOk result (out.new.items ≡ out.old.items ++ decoded case.now) }
{
    let mut rest = case;
    while let Some(start) = find_mark(rest, b'{') {
        unescape(out, &rest[..start], 0)?;
        let opened = after(rest, start + 2);
        let Some(end) = find_mark(opened, b'}') else {
            return Ok(());
        };
        repeat(out, &opened[..end])?;
        rest = after(opened, end + 2);
    }
    unescape(out, rest, 0)
}

fn main(rt: HostRuntime) -> anyhow::Result<()> {
    for line in BufReader::new(rt.alloc(), rt.stdin())?.lines(rt.alloc()) {
        let case = line?;
        let bytes = case.as_bytes();
        if bytes.first() != Some(&b'#') {
            let mut text = Vec::new(rt.alloc());
            decode(&mut text, bytes)?;
            let told = line_for(rt.alloc(), text.as_slice())?;
            rt.print(told.as_str())?;
        }
    }
    Ok(())
}
