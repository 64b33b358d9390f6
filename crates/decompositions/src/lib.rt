// The method by which the engine finds prime rows: decompositions, refined until no prime is new. No code: definitions and theorems.
#![tactic(auto)]
