ghost use Rattle.h2_geom.specs.Laws.{MapBlocksApart, MapApartFromHeaders, HeadersApart, MapIsReserved, MapInZone, HeadersAreReserved};

/// A law: blocks of the freemap of different level, zone or copy have no byte in common, nor have they
/// one with a header's slot, nor different slots with one another. All of them lie in reserved chunks, on a disk of 2^34 bytes, and each block
/// lies in its zone, at a multiple of its size.
pub fn map_place_law()
    ensures blocks_apart { MapBlocksApart }
    ensures headers_apart { MapApartFromHeaders }
    ensures headers_distinct { HeadersApart }
    ensures blocks_reserved { MapIsReserved }
    ensures blocks_in_zone { MapInZone }
    ensures headers_reserved { HeadersAreReserved }
{}
