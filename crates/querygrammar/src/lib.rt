// The editions in which a query is written. Their grammar is defined in specs/, once for all, and its laws are proved in proofs/.
#![tactic(auto)]

use charset::Charset;

// The first is that of document 01, in FSW; the second that of draft -10, section 1.5 (document 02, Q-9), in either
// character set.
#[derive(Clone, Copy)]
pub enum Edition {
    First,
    Second(Charset),
}
