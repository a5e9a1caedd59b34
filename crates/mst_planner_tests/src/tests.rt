mod calls;
mod digests;
mod lines;
mod refused;
