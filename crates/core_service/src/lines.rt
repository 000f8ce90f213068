//! Where lines end.

ghost use Rattle.std.specs.Prelude.{◌≡◌, ◌+◌, ◌<◌, false, ◌∷◌, length, take, drop, IfSome, IfNone};
ghost use Rattle.cer_base.specs.declared.bytes.TheConstants.{LINE_FEED};
ghost use Rattle.event_reader.specs.Lines.{has_line_feed};

use cer_base::bytes::LINE_FEED;
use memchr::memchr;

/// Whether the bytes hold a line feed.
pub fn has_line_feed(bytes: &[u8]) -> bool
    ensures { result ≡ has_line_feed bytes.now }
{
    memchr(LINE_FEED, bytes).is_some()
}

/// How many bytes stand before the first line feed, if there is one.
pub fn line_len(bytes: &[u8]) -> Option<usize>
    ensures within { IfSome result (λ len. len < length bytes.now) }
    ensures line { IfSome result (λ len. has_line_feed (take len bytes.now) ≡ false) }
    ensures feed { IfSome result (λ len.
        drop len bytes.now ≡ LINE_FEED ∷ drop (len + 1) bytes.now) }
    ensures none { IfNone result (has_line_feed bytes.now ≡ false) }
{
    memchr(LINE_FEED, bytes)
}
