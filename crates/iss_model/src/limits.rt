//! The greatest and least values of fields, records and runs, and what a field is that isn't given.

/// The longest token, in bytes.
pub const LONGEST_TOKEN: usize = 36;

/// The last stamp: the end of the year 9998, in milliseconds since 1970.
pub const LAST_STAMP: u64 = 253_370_764_799_999;

/// The least amount of an event, in minor units.
pub const LEAST_AMOUNT: u64 = 1;

/// The greatest amount of an event, in minor units.
pub const GREATEST_AMOUNT: u64 = 1_000_000_000;

/// The greatest limit of a control or a Commando Mode set, in minor units.
pub const GREATEST_LIMIT: u64 = 1_000_000_000_000;

/// The greatest limit of a control on how many purchases it lets through.
pub const GREATEST_USAGE: u32 = 1_000_000;

/// The greatest merchant category code of ISO 18245: codes have four decimal digits.
pub const GREATEST_MCC: u16 = 9999;

/// The least offset of a control's clock from UTC: 12 hours behind UTC, in minutes.
pub const LEAST_OFFSET: i16 = -720;

/// The greatest offset of a control's clock from UTC: 14 hours ahead of UTC, in minutes.
pub const GREATEST_OFFSET: i16 = 840;

/// The most merchant category codes of a group.
pub const MOST_MCCS: usize = 1000;

/// The shortest time for an answer of the gateway, in milliseconds.
pub const SHORTEST_TIMEOUT: u64 = 1;

/// The longest time for an answer of the gateway: a minute, in milliseconds.
pub const LONGEST_TIMEOUT: u64 = 60_000;

/// The time for an answer of a product whose line names none, in milliseconds: three seconds.
pub const DEFAULT_TIMEOUT: u64 = 3000;

/// The shortest time that an authorisation holds its amount: a day, in milliseconds.
pub const SHORTEST_HOLD: u64 = 86_400_000;

/// The longest time that an authorisation holds its amount: 31 days, in milliseconds.
pub const LONGEST_HOLD: u64 = 2_678_400_000;

/// How long a product holds an amount if its line says nothing of it: seven days, in milliseconds.
pub const DEFAULT_HOLD: u64 = 604_800_000;

/// The most products with the built-in one, the most groups, the most controls and the most sets.
pub const MOST_OF_A_KIND: usize = 256;

/// The number of the first call or notice.
pub const FIRST_NUMBER: u32 = 1;

/// The greatest number of a call or notice.
pub const GREATEST_NUMBER: u32 = 4_294_967_295;

/// How many instances there are: the token of a call spells one in six bytes.
pub const INSTANCES: u64 = 1 << 48;

/// The most records of a journal or a run.
pub const MOST_RECORDS: u32 = 1_073_741_823;

/// The most bytes of input that a run takes.
pub const MOST_INPUT: u64 = 4_294_967_296;

/// The longest line that is read, in bytes without its line feed.
pub const LONGEST_LINE: usize = 16_384;
