// Definitions and laws of certificates and chains; each law is the contract of a function.
#![tactic(auto)]

ghost use Rattle.trust.specs.Promise.{ChainOrNone, NoRepeats, NoLonger, MoreKeeps, ChainMeans};

// There is a shortest chain, or no chain at all.
pub fn chain_or_none_stands() -> u8
    ensures { ChainOrNone }
{
    0
}

// In a shortest chain no certificate occurs twice.
pub fn no_repeats_stands() -> u8
    ensures { NoRepeats }
{
    0
}

// A shortest chain is no longer than there are certificates.
pub fn no_longer_stands() -> u8
    ensures { NoLonger }
{
    0
}

// More certificates, valid signatures or trust anchors take no chain away.
pub fn more_keeps_stands() -> u8
    ensures { MoreKeeps }
{
    0
}

// The definition of a chain says the same as its links, place by place.
pub fn chain_means_stands() -> u8
    ensures { ChainMeans }
{
    0
}
