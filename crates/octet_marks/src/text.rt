//! A marks file as text, piece by piece.
ghost use Rattle.std.specs.Prelude.{◌≡◌, ◌++◌, IfOk, OnOk};
ghost use Rattle.std.specs.List.{flat_map};
ghost use Rattle.std.specs.Fmt.{decimal};
ghost use Rattle.std.specs.Int.{w64, to_be_bytes};
ghost use Rattle.hex.specs.Hex.{encode_lower};
ghost use Rattle.octet_log.specs.Texts.{mark_line};
ghost use Rattle.octet_marks.specs.Texts.{start_lines, head_text, block_text, end_text, piece_text, ending_text, cause_words, refusal_line};

use crate::{Block, End, Ending, Head, MarksCause, Piece};
use octet_log::push_mark;
use octet_model::{Gapped, OutOfMemory, push_number};
use std::alloc::Global;

// Adds a word and a number.
fn push_named(out: &mut Vec<u8>, name: &[u8], number: u64) -> Result<(), OutOfMemory>
    ensures { OnOk result (out.new.items ≡ out.old.items ++ name.now ++ decimal number) }
{
    out.extend_from_slice(name)?;
    push_number(out, number)
}

// Adds the hexadecimal digits of some bytes.
fn push_hex(alloc: Global, out: &mut Vec<u8>, bytes: &[u8]) -> Result<(), OutOfMemory>
    ensures { OnOk result (out.new.items ≡ out.old.items ++ encode_lower bytes.now) }
{
    let digits = hex::encode(alloc, bytes)?;
    out.extend_from_slice(digits.as_bytes())?;
    Ok(())
}

fn push_starts(out: &mut Vec<u8>, starts: &[u64]) -> Result<(), OutOfMemory>
    ensures { OnOk result (out.new.items ≡ out.old.items ++ start_lines 0 starts.now) }
{
    for (object, start) in starts.iter().enumerate() {
        push_named(out, b"object ", object as u64)?;
        push_named(out, b" ", *start)?;
        out.extend_from_slice(b"\n")?;
    }
    Ok(())
}

fn push_head(alloc: Global, out: &mut Vec<u8>, head: &Head) -> Result<(), OutOfMemory>
    ensures { OnOk result (out.new.items ≡ out.old.items ++ head_text head.now) }
{
    push_named(out, b"threads ", u64::from(head.threads))?;
    out.extend_from_slice(b"\ndeclared ")?;
    push_hex(alloc, out, &head.declared.bytes)?;
    out.extend_from_slice(b"\n")?;
    push_starts(out, head.starts.as_slice())
}

fn push_mark_line(out: &mut Vec<u8>, gapped: Gapped) -> Result<(), OutOfMemory>
    ensures { OnOk result (out.new.items ≡ out.old.items ++ mark_line gapped) }
{
    push_named(out, b"gap ", u64::from(gapped.gap))?;
    out.extend_from_slice(b" ")?;
    push_mark(out, gapped.mark)?;
    out.extend_from_slice(b"\n")?;
    Ok(())
}

fn push_mark_lines(out: &mut Vec<u8>, marks: &[Gapped]) -> Result<(), OutOfMemory>
    ensures { OnOk result (out.new.items ≡ out.old.items ++ flat_map mark_line marks.now) }
{
    for gapped in marks {
        push_mark_line(out, *gapped)?;
    }
    Ok(())
}

fn push_block(alloc: Global, out: &mut Vec<u8>, block: &Block) -> Result<(), OutOfMemory>
    ensures { OnOk result (out.new.items ≡ out.old.items ++ block_text block.now) }
{
    push_named(out, b"block ", u64::from(block.thread))?;
    push_named(out, b" first ", block.first)?;
    out.extend_from_slice(b"\n")?;
    push_mark_lines(out, block.marks.as_slice())?;
    push_named(out, b"gap ", u64::from(block.gap))?;
    out.extend_from_slice(b" digest ")?;
    push_hex(alloc, out, &block.digest.to_be_bytes())?;
    out.extend_from_slice(b"\n")?;
    Ok(())
}

fn push_end(out: &mut Vec<u8>, end: End) -> Result<(), OutOfMemory>
    ensures { OnOk result (out.new.items ≡ out.old.items ++ end_text end) }
{
    push_named(out, b"end ", u64::from(end.thread))?;
    push_named(out, b" events ", end.events)?;
    out.extend_from_slice(b"\n")?;
    Ok(())
}

/// Adds the lines of a piece at the end.
pub fn push_piece_text(alloc: Global, out: &mut Vec<u8>, piece: &Piece) -> Result<(), OutOfMemory>
    ensures { OnOk result (out.new.items ≡ out.old.items ++ piece_text piece.now) }
{
    match piece {
        Piece::Head { head } => push_head(alloc, out, head),
        Piece::Block { block } => push_block(alloc, out, block),
        Piece::End { end } => push_end(out, *end),
    }
}

/// Adds the last line at the end: that the file is whole, or where it is cut.
pub fn push_ending_text(out: &mut Vec<u8>, ending: Ending) -> Result<(), OutOfMemory>
    ensures { OnOk result (out.new.items ≡ out.old.items ++ ending_text ending) }
{
    match ending {
        Ending::Whole => Ok(out.extend_from_slice(b"whole\n")?),
        Ending::Cut { at, left } => {
            push_named(out, b"cut at ", at)?;
            push_named(out, b", ", left as u64)?;
            out.extend_from_slice(b" bytes left aside\n")?;
            Ok(())
        }
    }
}

fn words_of(cause: MarksCause) -> &'static [u8]
    ensures { result.now ≡ cause_words cause }
{
    match cause {
        MarksCause::NoMagic => b"1 no magic",
        MarksCause::BadVersion => b"2 bad version",
        MarksCause::BadLength => b"3 bad length",
        MarksCause::BadChecksum => b"4 bad checksum",
        MarksCause::BadKind => b"5 bad kind",
        MarksCause::BadBody => b"6 bad body",
        MarksCause::BadThread => b"7 bad thread",
        MarksCause::AfterEnd => b"8 after the end",
        MarksCause::OutOfOrder => b"9 out of order",
        MarksCause::BadMark => b"10 bad mark",
        MarksCause::TooLong => b"11 too long",
    }
}

/// The line that says why, and where, bytes are refused as a marks file.
pub fn refusal_line(alloc: Global, cause: MarksCause, at: u64) -> Result<Vec<u8>, OutOfMemory>
    ensures { IfOk result (λ line. line.items ≡ refusal_line cause at) }
{
    let mut out = Vec::new(alloc);
    out.extend_from_slice(b"marks: ")?;
    out.extend_from_slice(words_of(cause))?;
    push_named(&mut out, b" at ", at)?;
    out.extend_from_slice(b"\n")?;
    Ok(out)
}
