//! The bytes of a script are looked at one by one, and each whole line is served.
ghost use Rattle.std.specs.Prelude.{◌≡◌, ◌≤◌, ◌∷◌, ◌++◌, [], ℕ, List, false, length, take, vec_capacity, vec_len};
ghost use Rattle.command_words.specs.Reading.{line_limit};
ghost use Rattle.geli_core.specs.Lines.{IsOneLine};
ghost use Rattle.geli_core.specs.Script.{most_taken};
ghost use Rattle.geli_core.specs.Served.{FeedsByte, FeedsPiece, FeedsSource, IsServed, SiteState};
ghost use Rattle.geli_core.specs.Sites.{BorrowsAsBefore, site_now};

use crate::serving::either;
use crate::site::Site;
use block_traits::{Cabinet, Disk, Entropy, Sink, Source};
use command_words::{LINE_LIMIT, Sep};
use memchr::memchr;
use wiping::wipe;

/// Why no more bytes are looked at.
#[derive(Clone, Copy)]
pub(crate) enum Stop {
    /// A line has too many bytes.
    TooLong,
    /// The sink failed.
    Unprinted,
}

/// How far the input was looked at.
#[derive(Clone, Copy)]
pub(crate) enum Ending {
    /// Up to its end.
    AtEnd,
    /// Up to a failure of the source.
    SourceFailed,
    /// Up to the most bytes of a script.
    Full,
    /// Up to a byte at which it stopped.
    Stopped(Stop),
}

/// How many bytes are taken at a time.
const PIECE: usize = 4_096;

/// The number of bytes that is too many for a script.
const SCRIPT_LIMIT: u64 = 1 << 40;

impl<K: Sink, C: Cabinet, E: Entropy, D: Disk> Site<'_, K, C, E, D> {
    /// Looks at one more byte. A newline ends the line, which is served and printed.
    fn feed_byte(&mut self, line: &mut Vec<u8>, byte: u8, refused: &mut bool) -> Result<(), Stop>
        requires room { line_limit ≤ vec_capacity line.old }
        requires short { vec_len line.old ≤ line_limit }
        ensures same { BorrowsAsBefore self.old self.new }
        ensures room { line_limit ≤ vec_capacity line.new }
        ensures short { vec_len line.new ≤ line_limit }
        ensures feeds { (bytes : List ℕ) (old : SiteState) →
            IsServed bytes old line.old.items refused.old (site_now K.state C.state E.state D.state self.old) →
            FeedsByte (bytes ++ byte ∷ []) old result line.new.items refused.new
            (site_now K.state C.state E.state D.state self.new) }
    {
        if byte == b'\n' {
            let end = match self.serve_and_print(line.as_slice(), Sep::Blanks) {
                Ok(end) => end,
                Err(_) => return Err(Stop::Unprinted),
            };
            *refused = either(*refused, end.is_refusal());
            wipe(line.as_mut_slice());
            line.clear();
            return Ok(());
        }
        if line.len() >= LINE_LIMIT {
            return Err(Stop::TooLong);
        }
        line.push_reserved(byte);
        Ok(())
    }

    /// Looks at the bytes of a piece, up to the first at which it stops.
    fn feed_piece(
        &mut self,
        line: &mut Vec<u8>,
        piece: &[u8],
        refused: &mut bool,
    ) -> Result<(), Stop>
        requires room { line_limit ≤ vec_capacity line.old }
        requires short { vec_len line.old ≤ line_limit }
        requires small { length piece.now ≤ most_taken }
        ensures same { BorrowsAsBefore self.old self.new }
        ensures room { line_limit ≤ vec_capacity line.new }
        ensures short { vec_len line.new ≤ line_limit }
        ensures feeds { (bytes : List ℕ) (old : SiteState) →
            IsServed bytes old line.old.items refused.old (site_now K.state C.state E.state D.state self.old) →
            FeedsPiece (bytes ++ piece.now) old result line.new.items refused.new
            (site_now K.state C.state E.state D.state self.new) }
    {
        let mut place = 0;
        'places: while place < piece.len() {
            let taken = feed_text(line, plain_part(&piece[place..]));
            if taken == 0 {
                self.feed_byte(line, piece[place], refused)?;
                place += 1;
            } else {
                place += taken;
            }
        }
        Ok(())
    }

    /// Takes the input piece by piece, and looks at its bytes.
    #[tactic(auto, using(crate::proofs::Pieces::met_end, crate::proofs::Pieces::met_refusal))]
    pub(crate) fn feed_source<S: Source>(
        &mut self,
        input: &mut S,
        line: &mut Vec<u8>,
        refused: &mut bool,
    ) -> Ending
        requires room { line_limit ≤ vec_capacity line.old }
        requires empty { line.old.items ≡ [] }
        requires nothing { refused.old ≡ false }
        ensures same { BorrowsAsBefore self.old self.new }
        ensures short { vec_len line.new ≤ line_limit }
        ensures feeds { FeedsSource (site_now K.state C.state E.state D.state self.old)
            (S.state input.old) result line.new.items refused.new
            (site_now K.state C.state E.state D.state self.new) (S.state input.new) }
    {
        let mut piece = [0; PIECE];
        let mut room = SCRIPT_LIMIT;
        while room > 0 {
            let most = (PIECE as u64).min(room) as usize;
            let count = match input.take(&mut piece[..most]) {
                Err(_) => return Ending::SourceFailed,
                Ok(0) => return Ending::AtEnd,
                Ok(count) => count,
            };
            let fed = self.feed_piece(line, &piece[..count], refused);
            wipe(&mut piece[..count]);
            if let Err(stop) = fed {
                return Ending::Stopped(stop);
            }
            room -= count as u64;
        }
        Ending::Full
    }
}

// The bytes before the first newline.
fn plain_part(bytes: &[u8]) -> &[u8]
    ensures one { IsOneLine result.now }
    ensures front { result.now ≡ take (length result.now) bytes.now }
{
    match memchr(b'\n', bytes) {
        Some(count) => &bytes[..count],
        None => bytes,
    }
}

// Adds the first bytes of a text without a newline to those of the line, as far as it has room, and returns how many.
fn feed_text(line: &mut Vec<u8>, text: &[u8]) -> usize
    requires room { line_limit ≤ vec_capacity line.old }
    requires short { vec_len line.old ≤ line_limit }
    ensures room { line_limit ≤ vec_capacity line.new }
    ensures short { vec_len line.new ≤ line_limit }
    ensures items { line.new.items ≡ line.old.items ++ take result text.now }
    ensures bound { result ≤ length text.now }
{
    let count = text.len().min(LINE_LIMIT - line.len());
    match line.extend_from_slice(&text[..count]) {
        Ok(()) => count,
        Err(_) => 0,
    }
}
