//! The parser of Alt-Ergo's native language, in the profile of this project: the tree of a text's
//! tokens, or the first token with which no file goes on.
//!
//! `specs/Grammar.antt` says which tokens are which tree, with one case for each production;
//! `specs/Depth.antt` gives the depth of each token of a tree. Both are relations over the lists of
//! tokens and know nothing of how they are read. `specs/Files.antt` says from them what a file is
//! (its tokens are the tree's, and none is deeper than 1,000) and what each fault is.
//!
//! [`parse`] answers the tree exactly where the tokens are a file, and else their fault, with its place
//! in the text. [`one_tree`] says that the grammar is unambiguous and that the depth of a token doesn't
//! hang on what follows it, [`one_answer`] that no tokens are a file and have a fault, and
//! [`faults_within`] that a fault's place is in the text or at its end. Want of memory is the one free
//! answer. That each token is looked at a bounded number of times stands in no contract.
//!
//! Precedence, from loose to tight: `->`, `<->` and `xor` (to the right), `or`, `and` (to the left),
//! `not`, the relations (two sides, no chain), `+` and `-`, `*`, `/` and `%` (to the left), unary `-`,
//! `.`. So `not a = b` is `not (a = b)`. The forms of `forall`, `exists`, `let` and `if` reach as far right as the text allows, so they
//! stand on the right of `->`, `or`, `and` and `not` without brackets and on the left of none.
//!
//! Where the grammar leaves a choice of tree, of depth or of fault:
//!
//! - Trees hold no text: a name is its place, a [`spans::Span`] of the text's bytes. A node's place goes
//!   from its first token to its last one.
//! - Round brackets are a node of their own, so that a tree shows where the text has them.
//! - A name without brackets after it is [`exprs::ExprKind::Apply`] with no arguments; `f()` is no expression.
//! - A type declared without a definition has no fields; a record type has one or more.
//! - `predicate p() = ..` and `predicate p = ..` are the same but for their places.
//! - `=` after the one name behind a `{` tells a record from a record whose fields are changed.
//! - The name after types in round brackets counts for the depth, as a postfix name does. The `->` of a
//!   `logic`, the `.` after the variables of a quantifier and the relations count nothing.
//! - At a token with which no file goes on, the fault is that one, however deep the token would be.
//! - A word of the language that the profile leaves out is [`SyntaxFault::OutsideProfile`] wherever no
//!   file goes on with it. Where the tokens end too early the fault is [`SyntaxFault::Unexpected`], at
//!   the text's length.
#![tactic(auto)]

mod cursor;
mod decl_nodes;
pub mod decls;
pub mod exprs;
mod faults;
mod file_laws;
mod laws;
mod nodes;
mod parser;
mod read_decls;
mod read_exprs;
mod read_groups;
mod read_items;
mod read_types;
pub mod spans;
pub mod types;

pub use cursor::DEPTH_LIMIT;
pub use decls::File;
pub use faults::SyntaxFault;
pub use file_laws::{faults_within, one_answer};
pub use laws::one_tree;
pub use parser::parse;
