// Runs of bytes, sixteen at a time.
ghost use Rattle.std.specs.Prelude.{◌≡◌, ◌+◌, ◌≤◌, length, drop, map};
ghost use Rattle.std.specs.List.{prefix_len};
ghost use Rattle.std.specs.Simd.Lanes.{mask_l};
ghost use Rattle.att_lexer.specs.Bytes.{is_stop, is_calm, is_one_of, is_none_of, is_symbol_byte, is_no_symbol_byte};

use crate::bytes::{is_stop, is_symbol_byte};
use std::simd::prelude::*;

// Which lanes are stops.
#[inline(always)]
fn stops(v: u8x16) -> u64
    ensures { result ≡ mask_l (map is_stop v) }
{
    (v.simd_eq(u8x16::splat(b'\n'))
        | v.simd_eq(u8x16::splat(b':'))
        | v.simd_eq(u8x16::splat(b';'))
        | v.simd_eq(u8x16::splat(b'"'))
        | v.simd_eq(u8x16::splat(b'#'))
        | (v.simd_eq(u8x16::splat(b'\''))
            | v.simd_eq(u8x16::splat(b'/'))
            | v.simd_eq(u8x16::splat(b'`'))
            | v.simd_eq(u8x16::splat(b'\\')))).to_bitmask()
}

// Which lanes are one of three bytes.
#[inline(always)]
fn hits(v: u8x16, a: u8, b: u8, c: u8) -> u64
    ensures { result ≡ mask_l (map (is_one_of a b c) v) }
{
    (v.simd_eq(u8x16::splat(a))
        | v.simd_eq(u8x16::splat(b))
        | v.simd_eq(u8x16::splat(c))).to_bitmask()
}

// Which lanes are no symbol bytes: no letters, no digits, and none of the few others.
#[inline(always)]
fn breaks(v: u8x16) -> u64
    ensures { result ≡ mask_l (map is_no_symbol_byte v) }
{
    let from_a = (v | u8x16::splat(0x20)) - u8x16::splat(b'a');
    let from_0 = v - u8x16::splat(b'0');
    (from_a.simd_ge(u8x16::splat(26))
        & from_0.simd_ge(u8x16::splat(10))
        & v.simd_ne(u8x16::splat(b'_'))
        & v.simd_ne(u8x16::splat(b'.'))
        & v.simd_ne(u8x16::splat(b'$'))
        & v.simd_lt(u8x16::splat(0x80))).to_bitmask()
}

fn stop_in_tail(text: &[u8], from: usize) -> usize
    requires { from ≤ length text.now }
    ensures { result ≡ from + prefix_len is_calm (drop from text.now) }
{
    let mut i = from;
    while i < text.len() && !is_stop(text[i]) {
        i += 1;
    }
    i
}

/// Where the first stop at a place or behind it stands, or the length.
#[inline(always)]
pub fn stop_from(text: &[u8], from: usize) -> usize
    requires { from ≤ length text.now }
    ensures value { result ≡ from + prefix_len is_calm (drop from text.now) }
    ensures bound { result ≤ length text.now }
{
    let mut i = from;
    while text.len() - i >= 16 {
        let found = stops(u8x16::from_slice(&text[i..]));
        if found != 0 {
            return i + found.trailing_zeros() as usize;
        }
        i += 16;
    }
    stop_in_tail(text, i)
}

fn hit_in_tail(text: &[u8], from: usize, a: u8, b: u8, c: u8) -> usize
    requires { from ≤ length text.now }
    ensures { result ≡ from + prefix_len (is_none_of a b c) (drop from text.now) }
{
    let mut i = from;
    while i < text.len() && text[i] != a && text[i] != b && text[i] != c {
        i += 1;
    }
    i
}

/// Where the first of three bytes at a place or behind it stands, or the length.
#[inline(always)]
pub fn hit_from(text: &[u8], from: usize, a: u8, b: u8, c: u8) -> usize
    requires { from ≤ length text.now }
    ensures value { result ≡ from + prefix_len (is_none_of a b c) (drop from text.now) }
    ensures bound { result ≤ length text.now }
{
    let mut i = from;
    while text.len() - i >= 16 {
        let found = hits(u8x16::from_slice(&text[i..]), a, b, c);
        if found != 0 {
            return i + found.trailing_zeros() as usize;
        }
        i += 16;
    }
    hit_in_tail(text, i, a, b, c)
}

// How many symbol bytes stand in front, byte by byte.
fn symbols_in_tail(bytes: &[u8]) -> usize
    ensures value { result ≡ prefix_len is_symbol_byte bytes.now }
    ensures bound { result ≤ length bytes.now }
{
    bytes.iter().take_while(|b| is_symbol_byte(**b)).count()
}

/// How many symbol bytes stand in front.
#[inline]
pub fn symbol_run(bytes: &[u8]) -> usize
    ensures value { result ≡ prefix_len is_symbol_byte bytes.now }
    ensures bound { result ≤ length bytes.now }
{
    let mut i = 0;
    while bytes.len() - i >= 16 {
        let found = breaks(u8x16::from_slice(&bytes[i..]));
        if found != 0 {
            return i + found.trailing_zeros() as usize;
        }
        i += 16;
    }
    i + symbols_in_tail(&bytes[i..])
}
