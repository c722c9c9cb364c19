// The bytes that a field with marks stands for.
use std::alloc::AllocError;

fn push_char(out: &mut Vec<u8>, letter: char) -> Result<(), AllocError> {
    let mut buffer = [0; 4];
    out.extend_from_slice(letter.encode_utf8(&mut buffer).as_bytes())
}

fn push_marked(out: &mut Vec<u8>, letter: char) -> Result<(), AllocError> {
    match letter {
        '␊' => push_char(out, '\n'),
        '␍' => push_char(out, '\r'),
        '␉' => push_char(out, '\t'),
        '␀' => push_char(out, '\0'),
        '¦' => push_char(out, '|'),
        other => push_char(out, other),
    }
}

fn push_digits(out: &mut Vec<u8>, turn: u32) -> Result<(), AllocError> {
    for power in [100, 10, 1] {
        out.push(b'0' + (turn / power % 10) as u8)?;
    }
    Ok(())
}

fn push_turn(out: &mut Vec<u8>, text: &str, turn: u32) -> Result<(), AllocError> {
    for letter in text.chars() {
        if letter == '№' {
            push_digits(out, turn)?;
        } else {
            push_marked(out, letter)?;
        }
    }
    Ok(())
}

fn push_turns(out: &mut Vec<u8>, text: &str, count: u32) -> Result<(), AllocError> {
    for turn in 0..count {
        push_turn(out, text, turn)?;
    }
    Ok(())
}

/// Puts the bytes at the end that stand between `«` and `»`.
fn push_run(out: &mut Vec<u8>, run: &str) -> Result<(), AllocError> {
    match run.split_once('*') {
        Some((count, text)) => push_turns(out, text, count.parse().unwrap_or(0)),
        None => {
            out.push(u8::from_str_radix(run, 16).unwrap_or(0))?;
            Ok(())
        }
    }
}

/// Puts the bytes at the end that a field stands for. In it `␊` is a line feed, `␍` a carriage return, `␉` a tab, `␀` NUL and
/// `¦` a bar. `«COUNT*TEXT»` is the text so many times, in which `№` stands for the turn, from 000, and `«HH»` is the byte with
/// these two hexadecimal digits. All else stands for itself.
pub fn push_bytes(out: &mut Vec<u8>, field: &str) -> Result<(), AllocError> {
    let mut is_run = false;
    for piece in field.split(|letter: char| letter == '«' || letter == '»') {
        if is_run {
            push_run(out, piece)?;
        } else {
            push_turn(out, piece, 0)?;
        }
        is_run = !is_run;
    }
    Ok(())
}
