// Printing, writing and making strips, into an output whose every byte is compared: past the result, and after a refusal, it is as it was.
use crate::got::{Got, UNLISTED, expected, of_answer};
use lent::Lent;
use number_list::{Numbers, byte_of, length_of};
use std::num::wrapping_sub_usize;

pub const WRITE: u64 = 25;

pub const PRINT_REPEATED: u64 = 47;

pub const STRIP: u64 = 49;

// The longest output of the list, one byte more than the longest text, and what stands in it before a call.
const ROOM_MAX: usize = 65_536;

const BEFORE: u8 = 165;

// The text in the first bytes of an output.
fn put(op: u64, lent: &Lent, root: u64, out: &mut [u8], room: usize) -> Got {
    let out = out.get_mut(..room).ok_or(UNLISTED)?;
    let (k, w, count) = (&*lent.kinds, &*lent.words, *lent.count);
    of_answer(match op {
        WRITE => engine_file::write(k, w, count, root, out),
        STRIP => engine_strip::strip(k, w, count, root, out),
        _ => engine_print::print(k, w, count, root, out),
    })
}

// From the place `period` up to a length each byte is the one so many places before it.
fn repeat(out: &mut [u8], period: usize, length: usize) {
    for i in period..length {
        let byte = out.get(wrapping_sub_usize(i, period)).copied().unwrap_or(0);
        if let Some(place) = out.get_mut(i) {
            *place = byte;
        }
    }
}

// A text of so many bytes; a long one is a piece again and again, and its last byte.
fn next_text(op: u64, list: &mut Numbers, length: usize, out: &mut [u8]) {
    if op != PRINT_REPEATED {
        return list.next_into(length, out, byte_of);
    }
    let period = list.next_length();
    list.next_into(period, out, byte_of);
    repeat(out, period, length);
    let last = byte_of(list.next());
    if let Some(place) = out.get_mut(wrapping_sub_usize(length, 1)) {
        *place = last;
    }
}

// The answer and the output against the list's.
fn compare(op: u64, list: &mut Numbers, got: Got, out: &[u8; ROOM_MAX]) -> bool {
    let want = expected(list);
    let mut bytes = [BEFORE; ROOM_MAX];
    next_text(op, list, length_of(want.unwrap_or(0)), &mut bytes);
    got == want && *out == bytes
}

pub fn text_is_right(op: u64, list: &mut Numbers, lent: &Lent) -> bool {
    let room = list.next_length();
    let root = list.next();
    let mut out = [BEFORE; ROOM_MAX];
    let got = put(op, lent, root, &mut out, room);
    compare(op, list, got, &out)
}
