// The catalogue as a hierarchy: which services of a list are contained in which, the direct superiors of each, and the classes of services
// that contain each other. `slots` reads and judges them; here the table is read off.
//
// The contracts cite specs/Answer, and what is read off a table is Hierarchy of `meaning`. That a cell is the answer of the single comparison,
// that direct superiors lead to every strict container, and what classes are, is proved in `answers`.
#![tactic(auto)]

mod answer;
mod classes;
mod superiors;
mod table;

pub use answer::hierarchy;
