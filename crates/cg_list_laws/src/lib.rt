//! Lists, sums, counts and maxima over the numbers below a bound, as loops accumulate them.
#![tactic(auto)]
