//! The words of the program, and what they ask for.
ghost use Rattle.std.specs.Prelude.{◌≡◌, IfOk, IfSome};
ghost use Rattle.std.specs.Result.{result_ok};
ghost use Rattle.iss_gateway_serve.specs.Words.{service_in, service_from, IsInRange};

use iss_amount::number_in;

/// The greatest port.
const GREATEST_PORT: u64 = 65_535;

/// The most times that a gateway waits.
const MOST_TURNS: u64 = 1_000_000;

/// The greatest limit of amounts, in minor units.
const GREATEST_LIMIT: u64 = 1_000_000_000_000;

/// What the program is to serve.
#[derive(Debug, Clone, Copy)]
pub struct Service {
    /// The port on which clients come.
    pub port: u16,
    /// How often it waits at most.
    pub turns: u32,
    /// The most that it funds for a call, in minor units.
    pub most: u64,
    /// What a user may have of it in a currency, in minor units.
    pub limit: u64,
}

/// The words ask for nothing.
#[derive(Debug, Clone, Copy)]
pub struct Usage;

/// What the words after the program's name ask for: `PORT TURNS MAX TOTAL`.
///
/// A number is decimal digits without a sign, and without a leading zero. PORT is 1 to 65535, TURNS is 1 to 1000000, and MAX and
/// TOTAL are minor units from 1 to 1000000000000.
pub fn service_of(words: &[String]) -> Result<Service, Usage>
    ensures said { result_ok result ≡ service_in words.now }
    ensures ranges { IfOk result IsInRange }
{
    match said(words) {
        Some(service) => Ok(service),
        None => Err(Usage),
    }
}

/// What the words say, if there are four.
#[tactic(auto, using(crate::proofs::Numbers::few, crate::proofs::Numbers::many), unfolding(crate::specs::Words::service_of_words))]
fn said(words: &[String]) -> Option<Service>
    ensures said { result ≡ service_in words.now }
    ensures ranges { IfSome result IsInRange }
{
    match words {
        [port, turns, most, limit] => numbers_said(
            port.as_bytes(),
            turns.as_bytes(),
            most.as_bytes(),
            limit.as_bytes(),
        ),
        _ => None,
    }
}

/// What four numbers say, if each is in its range.
fn numbers_said(port: &[u8], turns: &[u8], most: &[u8], limit: &[u8]) -> Option<Service>
    ensures said { result ≡ service_from port.now turns.now most.now limit.now }
    ensures ranges { IfSome result IsInRange }
{
    let port = number_in(1, GREATEST_PORT, port)? as u16;
    let turns = number_in(1, MOST_TURNS, turns)? as u32;
    let most = number_in(1, GREATEST_LIMIT, most)?;
    let limit = number_in(1, GREATEST_LIMIT, limit)?;
    Some(Service {
        port,
        turns,
        most,
        limit,
    })
}
