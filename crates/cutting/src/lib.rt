// The definitions of cuts: kept things, the cut sheet, piles of cuts, and runs on a whole sheet and on a pile.
#![tactic(auto)]

pub mod kinds;
