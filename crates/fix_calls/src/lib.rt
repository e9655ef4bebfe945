// What the two calls that hold a column still and let it go share: laws alone.
#![tactic(auto)]
