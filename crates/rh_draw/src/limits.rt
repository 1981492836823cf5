//! The measures of a picture, in pixels at 100 %, and how many steps it may have.

/// The most steps that one picture has.
pub const MAX_STEPS: u64 = 2000;

/// How far one step is below the one before: two lines of text have room between them.
pub const ROW: u64 = 30;

/// Where time begins.
pub const TOP: u64 = 240;

/// What follows below the last step.
pub const BOTTOM: u64 = 24;

/// Where the lane of worker 0 stands.
pub const LEFT: u64 = 128;

/// How far one lane is from the next.
pub const LANE: u64 = 56;

/// How wide a letter or a digit is at most, as a rule.
pub const LETTER: u64 = 7;

/// No more letters have room in a line.
pub const MAX_LETTERS: u64 = 1 << 32;

/// How wide the legend is: the lines of the title behind its first stand to the right of it.
pub const LEGEND_WIDTH: u64 = 540;

/// No picture has more lanes than a table has workers.
pub const MAX_LANES: u64 = 16;

/// The last moment that a picture shows: the one after its last step.
pub const LAST_MOMENT: u64 = MAX_STEPS + 1;

/// Where the numbers of the steps stand, and the first line of the title.
pub const NUMBERS: u64 = 12;

/// How far below the middle of a line of text its letters stand.
pub const HALF_LETTER: u64 = 4;

/// How far one line of text is from the next.
pub const TEXT: u64 = 12;

/// How far a text stands from the side of its column.
pub const INDENT: u64 = 6;

/// How far the box of a column stands from its side.
pub const GAP: u64 = 2;

/// How far below the upper side of a picture the first line of its title stands.
pub const TITLE: u64 = 18;

/// How far the first heads of lanes and columns stand above the moment at which time begins.
pub const HEAD_RISE: u64 = 10;

/// After so many steps they are told again.
pub const HEAD_STEPS: u64 = 40;

/// How high the room is that they have there: three lines of text, and half a mark.
pub const BAND: u64 = 54;

/// Where the line of a round begins, beside its label.
pub const ROUNDS: u64 = 92;
