//! 64 MiB in pieces of 4,096 bytes, cut and copied sixteen times, for a comparison of user times.
//!
//! - `cut` pushes the pieces into a cutter with segments of 65,536 bytes, and takes the chunks.
//! - `copy` copies the pieces into a buffer of 65,536 bytes.
#![tactic(auto)]

ghost use Rattle.std.specs.Prelude.{◌≡◌, false, length};
ghost use Rattle.link_transfer.specs.Cutter.{has_ready_chunk};

use link_transfer::Cutter;
use std::alloc::{AllocError, Global};
use std::{env, io};

/// The number of bytes of a piece.
const PIECE: usize = 4096;

/// The number of pieces of a segment.
const PIECES: usize = 16;

/// The number of segments: those of 64 MiB, sixteen times.
const SEGMENTS: u32 = 16_384;

/// The number of pieces of all segments.
const ALL_PIECES: u32 = 262_144;

/// The sum of a chunk's length and of one of its bytes, whose offset depends on the first byte.
fn sample(chunk: &[u8]) -> u64 {
    let first = chunk.first().copied().unwrap_or(0);
    let other = chunk.get(usize::from(first) * 256).copied().unwrap_or(0);
    (chunk.len() as u64).wrapping_add(u64::from(other))
}

/// A piece whose bytes the compiler does not know, since they depend on a word of the command line.
#[inline(never)]
fn first_piece(word: &str) -> [u8; PIECE] {
    let mut value = (word.len() % 256) as u8;
    let mut piece = [0; PIECE];
    for byte in piece.iter_mut() {
        value = value.wrapping_mul(5).wrapping_add(1);
        *byte = value;
    }
    piece
}

/// Makes the next piece. No two pieces in a row are equal, so each has to be copied.
fn next(piece: &mut [u8; PIECE]) {
    piece[0] = piece[0].wrapping_add(1);
}

/// Takes the chunks that are ready, and returns the sum of their samples.
#[inline(always)]
fn take_chunks(cutter: &mut Cutter) -> u64
    ensures { has_ready_chunk cutter.new ≡ false }
{
    let mut answer = 0u64;
    while let Some(_cut) = cutter.cut() {
        answer = answer.wrapping_add(sample(cutter.bytes()));
    }
    answer
}

#[inline(never)]
fn cut(alloc: Global, piece: &mut [u8; PIECE]) -> Result<u64, AllocError> {
    let mut answer = 0u64;
    let mut cutter = Cutter::new(alloc, PIECE * PIECES, 0)?;
    for _piece in 0..ALL_PIECES {
        next(piece);
        cutter.push_slice(piece, false);
        answer = answer.wrapping_add(take_chunks(&mut cutter));
    }
    Ok(answer)
}

#[inline(never)]
fn copy(alloc: Global, piece: &mut [u8; PIECE]) -> Result<u64, AllocError> {
    let mut answer = 0u64;
    let mut buffer = vec![in alloc; 0u8; PIECE * PIECES]?;
    for _segment in 0..SEGMENTS {
        fill(&mut buffer, piece);
        answer = answer.wrapping_add(sample(&buffer));
    }
    Ok(answer)
}

/// Fills a segment with copies of pieces.
fn fill(segment: &mut [u8], piece: &mut [u8; PIECE])
    requires { length segment.old ≡ 65536 }
{
    for index in 0..PIECES {
        next(piece);
        let at = index * PIECE;
        segment[at..at + PIECE].copy_from_slice(piece);
    }
}

fn main(rt: HostRuntime) -> io::Result<()> {
    let mut answer = 0;
    for word in env::args(&rt)? {
        let mut piece = first_piece(word.as_str());
        if word.as_str() == "cut" {
            answer = cut(rt.alloc(), &mut piece)?;
        }
        if word.as_str() == "copy" {
            answer = copy(rt.alloc(), &mut piece)?;
        }
    }
    println!(rt; "{answer}")?;
    Ok(())
}
