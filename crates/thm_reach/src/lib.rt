// When a get of one frame is refused with Memory: what is reachable is in specs/, the theorem in proofs/. No function.
#![tactic(auto)]
