// Titles as a terminal takes them.
ghost use Rattle.std.specs.Prelude.{◌≡◌, ◌≤◌, ◌<◌, ◌-◌, ◌+◌, ◌*◌, ◌++◌, drop, length, IfOk, OnOk};
ghost use Rattle.rr_title.specs.Title.{IsPushed, bytes_left, escaped_byte, four_bytes, front_length, hex_digit, is_letter, is_more, is_plain, is_sign, is_visible, three_bytes, title_from, title_text, two_bytes, visible_bytes};

use rr_model::NoMemory;

// Whether a character of ASCII stands for itself.
fn is_plain(byte: u8) -> bool
    ensures { result ≡ is_plain byte }
{
    32 <= byte && byte <= 126 && byte != b'"' && byte != b'\\'
}

// Whether a character is a letter with its marks.
fn is_letter(c: u32) -> bool
    ensures { result ≡ is_letter c }
{
    (161 <= c && c <= 767 && c != 173)
        || (880 <= c && c <= 1_154)
        || (1_162 <= c && c <= 1_423)
        || (1_488 <= c && c <= 1_514)
        || (1_568 <= c && c <= 1_610)
        || (2_304 <= c && c <= 3_583)
        || (3_585 <= c && c <= 3_675)
        || (4_256 <= c && c <= 4_351)
        || (7_680 <= c && c <= 8_191)
        || (12_353 <= c && c <= 12_543)
        || (13_312 <= c && c <= 40_959)
        || (44_032 <= c && c <= 55_203)
}

// Whether a character is a sign.
fn is_sign(c: u32) -> bool
    ensures { result ≡ is_sign c }
{
    (8_208 <= c && c <= 8_231)
        || (8_240 <= c && c <= 8_286)
        || (8_352 <= c && c <= 8_383)
        || (8_448 <= c && c <= 11_263)
        || (12_289 <= c && c <= 12_351)
        || (65_281 <= c && c <= 65_376)
        || (127_744 <= c && c <= 129_791)
}

#[tactic(auto, unfolding(crate::specs::Title::is_visible))]
fn is_visible(c: u32) -> bool
    ensures { result ≡ is_visible c }
{
    is_letter(c) || is_sign(c)
}

// Whether a byte continues a character.
fn is_more(byte: u8) -> bool
    ensures { result ≡ is_more byte }
{
    128 <= byte && byte <= 191
}

// How many bytes a character has that is printed as it stands, otherwise 0.
fn visible_bytes(least: u32, bytes: usize, c: u32) -> usize
    ensures { result ≡ visible_bytes least bytes c }
{
    if least <= c && is_visible(c) {
        bytes
    } else {
        0
    }
}

// The part of a character's number that a byte has.
fn part(byte: u8, low: u8, unit: u32) -> u32
    requires low { low ≤ byte }
    requires unit { unit ≤ 262_144 }
    ensures value { result ≡ (byte - low) * unit }
    ensures high { result ≤ 256 * 262_144 }
{
    u32::from(byte - low) * unit
}

fn two_bytes(a: u8, more: &[u8]) -> usize
    requires { 192 ≤ a }
    ensures { result ≡ two_bytes a more.now }
{
    match more {
        [b, ..] if is_more(*b) => visible_bytes(128, 2, part(a, 192, 64) + part(*b, 128, 1)),
        _ => 0,
    }
}

fn three_bytes(a: u8, more: &[u8]) -> usize
    requires { 224 ≤ a }
    ensures { result ≡ three_bytes a more.now }
{
    match more {
        [b, c, ..] if is_more(*b) && is_more(*c) => visible_bytes(
            2_048,
            3,
            part(a, 224, 4_096) + part(*b, 128, 64) + part(*c, 128, 1),
        ),
        _ => 0,
    }
}

fn four_bytes(a: u8, more: &[u8]) -> usize
    requires { 240 ≤ a }
    ensures { result ≡ four_bytes a more.now }
{
    match more {
        [b, c, d, ..] if is_more(*b) && is_more(*c) && is_more(*d) => visible_bytes(
            65_536,
            4,
            part(a, 240, 262_144) + part(*b, 128, 4_096) + part(*c, 128, 64) + part(*d, 128, 1),
        ),
        _ => 0,
    }
}

// How many bytes, a first one and those after it, are one character that is printed as it stands, 0 if they are none.
#[tactic(auto, unfolding(crate::specs::Title::front_length))]
fn front_length(a: u8, more: &[u8]) -> usize
    ensures { result ≡ front_length a more.now }
{
    if is_plain(a) {
        1
    } else if 192 <= a && a <= 223 {
        two_bytes(a, more)
    } else if 224 <= a && a <= 239 {
        three_bytes(a, more)
    } else if 240 <= a && a <= 247 {
        four_bytes(a, more)
    } else {
        0
    }
}

fn hex_digit(value: u8) -> u8
    requires { value < 16 }
    ensures { result ≡ hex_digit value }
{
    if value < 10 {
        b'0' + value
    } else {
        b'a' + (value - 10)
    }
}

/// Appends a byte as `\x` and two hexadecimal digits.
pub fn push_escaped(out: &mut Vec<u8>, byte: u8) -> Result<(), NoMemory>
    ensures { OnOk result (out.new.items ≡ out.old.items ++ escaped_byte byte) }
{
    let text = [b'\\', b'x', hex_digit(byte / 16), hex_digit(byte % 16)];
    out.extend_from_slice(&text)?;
    Ok(())
}

// How many bytes a character has that a byte begins or goes on.
fn bytes_left(left: usize, byte: u8, more: &[u8]) -> usize
    ensures { result ≡ bytes_left left byte more.now }
{
    if left == 0 {
        front_length(byte, more)
    } else {
        left
    }
}

// Appends a byte, of a character that has `of` bytes from this one on, or escaped if it is of none; how many of the
// character are left then.
fn push_byte(out: &mut Vec<u8>, of: usize, byte: u8) -> Result<usize, NoMemory>
    ensures { IfOk result (λ left. IsPushed of byte left out.old.items out.new.items) }
{
    if of == 0 {
        push_escaped(out, byte)?;
        return Ok(0);
    }
    out.push(byte)?;
    Ok(of - 1)
}

// Appends the byte of a title at an index, `left` bytes from it on being of a character that was begun; how many are left then.
fn push_at(out: &mut Vec<u8>, left: usize, title: &[u8], index: usize) -> Result<usize, NoMemory>
    requires { index < length title.now }
    ensures { IfOk result (λ next. out.new.items ++ title_from next (drop (index + 1) title.now)
        ≡ out.old.items ++ title_from left (drop index title.now)) }
{
    let byte = title[index];
    let of = bytes_left(left, byte, &title[index + 1..]);
    push_byte(out, of, byte)
}

/// Appends a title: visible characters in UTF-8 as they stand, and each other byte, the backslash and the quote as `\x` and two
/// hexadecimal digits.
pub fn push_title(out: &mut Vec<u8>, title: &[u8]) -> Result<(), NoMemory>
    ensures { OnOk result (out.new.items ≡ out.old.items ++ title_text title.now) }
{
    let mut left = 0;
    for index in 0..title.len() {
        left = push_at(out, left, title, index)?;
    }
    Ok(())
}
