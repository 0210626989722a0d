// What word rules mean: definitions in specs/, theorems there and in proofs/, and the type that they share with the code above.
// Code of the layers above is proved against them; this crate runs nothing.
#![tactic(auto)]

// How members are joined: one after another, as a choice, or so that a text belongs to all of them.
#[derive(Clone, Copy)]
pub enum Join {
    Then,
    Or,
    Both,
}
