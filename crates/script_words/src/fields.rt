//! Words as values.

ghost use Rattle.std.specs.Prelude.{◌≡◌, ◌+◌, ◌<◌, ◌≤◌, ◌^◌, length, replicate, IfOk, IfSome, codes};
ghost use Rattle.script_words.specs.Fields.{is_word, is_digit, number_of, number_to, proc_of, packet_of, packet_from, frame_of, frame_from, bits_of, round_of, digit_of, other_of, Decodes};
ghost use Rattle.hex.specs.Hex.{decode_of, hex_digit_value};

use crate::Refused;
use frame_format::{FRAME_BYTES, FrameBuf};
use ftpp_base::{Ne, Proc, Round};
use packet_format::Packet;

/// Whether the word is this one.
pub fn is_named(word: &[u8], name: &[u8]) -> bool
    ensures { result ≡ is_word word.now name.now }
{
    word == name
}

/// Whether a byte is a decimal digit.
fn is_decimal(b: u8) -> bool
    ensures { result ≡ is_digit b }
{
    b >= b'0' && b <= b'9'
}

/// One to ten digits.
#[tactic(auto, using(crate::proofs::Numbers::digits_more, crate::proofs::Numbers::digits_stop, crate::proofs::Numbers::value_more, crate::proofs::Numbers::next_power, crate::proofs::Numbers::below_power), unfolding(crate::specs::Fields::number_of))]
pub fn number(word: &[u8]) -> Result<u64, Refused>
    ensures value { result ≡ number_of word.now }
    ensures small { IfOk result (λ n. n < 10 ^ 10) }
{
    if word.is_empty() || word.len() > 10 {
        return Err(Refused::Number);
    }
    let mut value = 0u64;
    for b in word {
        if !is_decimal(*b) {
            return Err(Refused::Number);
        }
        value = value * 10 + u64::from(*b - b'0');
    }
    Ok(value)
}

/// A number up to 255.
#[tactic(auto, unfolding(crate::specs::Fields::number_to))]
pub fn byte(word: &[u8]) -> Result<u8, Refused>
    ensures { result ≡ number_to 255 word.now }
{
    let n = number(word)?;
    if n > 255 {
        return Err(Refused::Number);
    }
    Ok(n as u8)
}

/// A number up to 330.
#[tactic(auto, unfolding(crate::specs::Fields::number_to))]
pub fn offset(word: &[u8]) -> Result<u16, Refused>
    ensures { result ≡ number_to 330 word.now }
{
    let n = number(word)?;
    if n > 330 {
        return Err(Refused::Number);
    }
    Ok(n as u16)
}

/// The value of a hexadecimal digit in either case.
fn hex_digit(b: u8) -> Option<u8>
    ensures value { result ≡ hex_digit_value b }
    ensures small { IfSome result (λ v. v < 16) }
{
    match b {
        b'A'..=b'F' => Some(b - b'A' + 10),
        b'a'..=b'f' => Some(b - b'a' + 10),
        b'0'..=b'9' => Some(b - b'0'),
        _ => None,
    }
}

/// Two hexadecimal digits.
#[tactic(auto, unfolding(crate::specs::Fields::bits_of))]
pub fn bits(word: &[u8]) -> Result<u8, Refused>
    ensures { result ≡ bits_of word.now }
{
    match word {
        [high, low] => {
            let high = hex_digit(*high).ok_or(Refused::Number)?;
            let low = hex_digit(*low).ok_or(Refused::Number)?;
            Ok(high * 16 + low)
        }
        _ => Err(Refused::Number),
    }
}

/// One of the four rounds, or None for `any`.
#[tactic(auto, unfolding(crate::specs::Fields::round_of))]
pub fn round(word: &[u8]) -> Result<Option<Round>, Refused>
    ensures { result ≡ round_of word.now }
{
    if is_named(word, b"A1") {
        return Ok(Some(Round::A1));
    }
    if is_named(word, b"A2") {
        return Ok(Some(Round::A2));
    }
    if is_named(word, b"B1") {
        return Ok(Some(Round::B1));
    }
    if is_named(word, b"B2") {
        return Ok(Some(Round::B2));
    }
    if is_named(word, b"any") {
        return Ok(None);
    }
    Err(Refused::RoundOrReceiver)
}

/// The digit of an element below `n` other than `f`.
#[tactic(auto, unfolding(crate::specs::Fields::digit_of))]
fn digit(refused: Refused, n: u8, f: Ne, word: &[u8]) -> Result<Option<Ne>, Refused>
    requires { n ≤ 5 }
    ensures { result ≡ digit_of refused n f word.now }
{
    match word {
        [d] => {
            if !is_decimal(*d) || usize::from(*d - b'0') == f.index() {
                return Err(refused);
            }
            match Ne::new(*d - b'0', n) {
                None => Err(refused),
                Some(e) => Ok(Some(e)),
            }
        }
        _ => Err(refused),
    }
}

/// An element other than `f`, or None where the name stands.
#[tactic(auto, unfolding(crate::specs::Fields::other_of))]
pub fn other(
    refused: Refused,
    name: &[u8],
    n: u8,
    f: Ne,
    word: &[u8],
) -> Result<Option<Ne>, Refused>
    requires { n ≤ 5 }
    ensures { result ≡ other_of refused name.now n f word.now }
{
    if is_named(word, name) {
        return Ok(None);
    }
    digit(refused, n, f, word)
}

/// A digit, a dot and a digit: an element below `n` and a port below 8.
#[tactic(auto, unfolding(crate::specs::Fields::proc_of))]
pub fn processor(n: u8, word: &[u8]) -> Result<Proc, Refused>
    ensures { result ≡ proc_of n word.now }
{
    match word {
        [e, dot, p] => {
            if is_decimal(*e) && *dot == b'.' && is_decimal(*p) && *e - b'0' < n && *p - b'0' < 8 {
                return Ok(Proc {
                    ne: *e - b'0',
                    port: *p - b'0',
                });
            }
            Err(Refused::Processor)
        }
        _ => Err(Refused::Processor),
    }
}

/// Writes the bytes of the digits to the front.
fn decode(word: &[u8], bytes: &mut [u8; 64]) -> Result<(), Refused>
    requires { length word.now ≤ 128 }
    ensures { Decodes (decode_of word.now) bytes.old bytes.new result }
{
    let half = word.len() / 2;
    match hex::decode_to_slice(word, &mut bytes[..half]) {
        Ok(()) => Ok(()),
        Err(_) => Err(Refused::Bytes),
    }
}

/// The packet of zeros.
fn no_packet() -> Packet
    ensures { result ≡ record { bytes = replicate 64 0 } }
{
    Packet { bytes: [0; 64] }
}

/// The packet of the digits in pairs, filled up with zeros.
fn decoded(word: &[u8]) -> Result<Packet, Refused>
    requires { length word.now ≤ 128 }
    ensures { result ≡ packet_from (decode_of word.now) }
{
    let mut packet = no_packet();
    match decode(word, &mut packet.bytes) {
        Ok(()) => Ok(packet),
        Err(refused) => Err(refused),
    }
}

/// A dash for zeros, or 2 to 128 hexadecimal digits in pairs.
#[tactic(auto, unfolding(crate::specs::Fields::packet_of))]
pub fn packet(word: &[u8]) -> Result<Packet, Refused>
    ensures { result ≡ packet_of word.now }
{
    if is_named(word, b"-") {
        return Ok(no_packet());
    }
    if word.len() < 2 || word.len() > 128 {
        return Err(Refused::Bytes);
    }
    decoded(word)
}

/// Writes the bytes of the digits to the front.
fn decode_frame(word: &[u8], bytes: &mut [u8; FRAME_BYTES]) -> Result<(), Refused>
    requires { length word.now ≤ 662 }
    ensures { Decodes (decode_of word.now) bytes.old bytes.new result }
{
    let half = word.len() / 2;
    match hex::decode_to_slice(word, &mut bytes[..half]) {
        Ok(()) => Ok(()),
        Err(_) => Err(Refused::Bytes),
    }
}

/// The frame of the digits in pairs.
fn decoded_frame(word: &[u8]) -> Result<FrameBuf, Refused>
    requires { length word.now ≤ 662 }
    ensures { result ≡ frame_from (decode_of word.now) }
{
    let mut bytes = [0u8; FRAME_BYTES];
    let mut frame = FrameBuf::new();
    match decode_frame(word, &mut bytes) {
        Ok(()) => {
            frame
                .try_extend_from_slice(&bytes[..word.len() / 2])
                .unwrap();
            Ok(frame)
        }
        Err(refused) => Err(refused),
    }
}

/// A dash for no bytes, or 2 to 662 hexadecimal digits in pairs.
#[tactic(auto, unfolding(crate::specs::Fields::frame_of))]
pub fn frame(word: &[u8]) -> Result<FrameBuf, Refused>
    ensures { result ≡ frame_of word.now }
{
    if is_named(word, b"-") {
        return Ok(FrameBuf::new());
    }
    if word.len() < 2 || word.len() > 662 {
        return Err(Refused::Bytes);
    }
    decoded_frame(word)
}
