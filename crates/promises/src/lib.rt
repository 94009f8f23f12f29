// All that documents 01 and 02 ask to hold, in one record: specs/Promises.antt. There is no code: each promise is stated in the crate of
// its operation, and proved there.
#![tactic(auto)]
