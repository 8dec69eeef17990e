//! The deposits of a list, one by one out of its writing. The bytes come from the file of deposits, and the deposits go to the
//! making of a genesis.

ghost use Rattle.std.specs.Prelude.{◌≡◌, ◌≤◌, ◌<◌, ◌^◌, length};
ghost use Rattle.std.specs.List.{AllByRecursion};
ghost use Rattle.beacon_types.specs.Containers.{deposit_data_codec};
ghost use Rattle.spec_genesis.specs.Branches.{deposits_codec};
ghost use Rattle.genesis_maker.specs.inside.Deposits.{TakesFirst};

use bc_words::NoMemory;
use beacon_types::DepositData;
use ssz_codec::{Ssz, SszFault};
use std::alloc::Global;
use std::marker::Model;

/// How many bytes the writing of a deposit has.
pub const DEPOSIT_LEN: usize = 184;

/// The most deposits of a list (`2 ** DEPOSIT_CONTRACT_TREE_DEPTH`).
const MAX_DEPOSITS: u64 = 1 << 32;

/// The deposits of a list, in order, out of its writing. Contracts see those that are still to come. A deposit is read when its
/// turn comes, and none is kept.
#[derive(Drop)]
pub struct Deposits<'a> {
    rest: &'a [u8],
}

impl<'a> Model for Deposits<'a> {
    ghost use Rattle.std.specs.Prelude.{List};
    ghost use Rattle.beacon_types.specs.declared.deposit_data.DepositData.{DepositData};
    ghost use Rattle.genesis_maker.specs.inside.Deposits.{deposits_in, AreDeposits};

    ghost Value = { List DepositData };

    ghost view = { λ deposits. deposits_in deposits.rest.now };

    ghost invariant = { λ deposits. AreDeposits deposits.rest.now };
}

impl<'a> Deposits<'a> {
    /// The deposits that the bytes are the writing of (`List[DepositData, 2 ** 32]`), None exactly where they are no list's: where
    /// their number isn't a multiple of 184, or there are more than 2^32 deposits.
    pub fn of(bytes: &'a [u8]) -> Option<Deposits<'a>>
        ensures { result ≡ deposits_codec.deserialize bytes.now }
    {
        let count = bytes.len() / DEPOSIT_LEN;
        if bytes.len() % DEPOSIT_LEN != 0 || count as u64 > MAX_DEPOSITS {
            return None;
        }
        Some(Deposits { rest: bytes })
    }

    /// How many are still to come. Each of them is one that its codec has.
    pub fn len(&self) -> u64
        ensures len { result ≡ length self.now }
        ensures within { AllByRecursion deposit_data_codec.Within self.now }
        ensures few { length self.now ≤ 2 ^ 32 }
    {
        (self.rest.len() / DEPOSIT_LEN) as u64
    }

    /// The next one, where there is one. Where memory is refused, it is still to come.
    pub fn next(&mut self, alloc: Global) -> Result<DepositData, NoMemory>
        requires { 0 < length self.old }
        ensures { TakesFirst result self.old self.new }
    {
        let (first, rest) = self.rest.split_at(DEPOSIT_LEN);
        match DepositData::parse(alloc, first) {
            Ok(deposit) => {
                self.rest = rest;
                Ok(deposit)
            }
            Err(SszFault::NoMemory) => Err(NoMemory),
            Err(SszFault::NotAWriting) => unreachable!(),
        }
    }
}
