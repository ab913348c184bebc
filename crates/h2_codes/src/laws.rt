ghost use Rattle.h2_codes.specs.LayoutLaws.{OneSegment, OneSpelling};

/// A law: bytes hold the codes of one segment at most, and a segment has one spelling in 64 bytes.
pub fn layout_law()
    ensures one_segment { OneSegment }
    ensures one_spelling { OneSpelling }
{}
