//! Lines of two texts side by side, laid out in place, so that a line is written with one call of the sink.
ghost use Rattle.std.specs.Prelude.{◌≡◌, ◌≤◌, ◌++◌, length, take, drop};
ghost use Rattle.aide_text.specs.Layout.{heading, margin, pair_line};
ghost use Rattle.aide_text.specs.code.Columns.{blank_pair};

/// Returns a line with a margin, two empty columns and the bar between them.
#[tactic(auto, unfolding(crate::specs::Layout::margin))]
pub(crate) fn blank_line() -> [u8; 82]
    ensures { result ≡ margin ++ blank_pair }
{
    let mut line = [b' '; 82];
    line[47] = b'|';
    line
}

/// Lays a name and its colon into the margin of a line.
pub(crate) fn lay_name(line: &mut [u8; 82], name: &[u8])
    requires short { length name.now ≤ 10 }
    requires blank { line.old ≡ margin ++ blank_pair }
    ensures { line.new ≡ heading name.now ++ blank_pair }
{
    line[12] = b':';
    line[2..2 + name.len()].copy_from_slice(name);
}

/// Lays a piece of each text and the end of the line behind the head of a line. Returns how long the line is.
pub(crate) fn lay_pair(line: &mut [u8; 82], old_piece: &[u8], new_piece: &[u8]) -> usize
    requires old_short { length old_piece.now ≤ 32 }
    requires new_short { length new_piece.now ≤ 32 }
    requires blank { drop 14 line.old ≡ blank_pair }
    ensures fits { result ≤ 82 }
    ensures behind_head { 14 ≤ result }
    ensures laid { take result line.new
        ≡ pair_line (take 14 line.old) old_piece.now new_piece.now }
{
    line[14..14 + old_piece.len()].copy_from_slice(old_piece);
    line[49..49 + new_piece.len()].copy_from_slice(new_piece);
    line[49 + new_piece.len()] = b'\n';
    50 + new_piece.len()
}
