// Every route of a get and every call leaves the standing rules standing; the rules as a test, as document 01's sentences, and with nothing in hand are one: in specs/. No function.
#![tactic(auto)]
