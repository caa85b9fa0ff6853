// The transform facts of a prime of the papers' shape and its root, whatever the prime. There is no code.
#![tactic(auto)]

ghost use Rattle.prime_shape.specs.Transform.{EveryPrime, EveryVolume};

// The transform facts of every prime of the shape, as a contract, so that none of them can be missed.
pub fn every_prime()
    ensures { EveryPrime }
{}

// And those of packed volumes.
pub fn every_volume()
    ensures { EveryVolume }
{}
