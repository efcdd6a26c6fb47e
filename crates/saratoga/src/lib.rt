// The public face: what C calls, on numbers and octet slices. include/saratoga.h declares it and says what each field means.
// Each function but `saratoga_read` is one call of the function below it that has the same contract.
#![tactic(auto)]

pub mod bitmaps;
pub mod digests;
pub mod packets;
pub mod plans;
pub mod receiver;
pub mod settings_file;
