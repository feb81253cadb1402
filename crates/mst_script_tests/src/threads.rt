//! What no clause says, and no transcript shows: that the workers run at once, and what a refused
//! growth leaves. Transcripts have the reports (`tests/transcripts/loads.txt`).
mod memory;
mod overlap;
mod reading;
