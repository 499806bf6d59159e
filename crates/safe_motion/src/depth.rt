//! The depth of certificates.
use space3::SCALE_LIMIT;

/// How often a step is halved for a certificate: it holds in each of 2^8 = 256 equal intervals. At this depth a place in
/// the box, times the number of intervals, is within 2^28, so that all products of certificates have fixed widths.
pub const DEPTH: u8 = SCALE_LIMIT;
