//! Steps beside open guesses of others, and steps over byte keys: as many as the environment says. `bench/own.py` counts what
//! they cost.
mod beside;
mod byte_keys;
mod plan;
