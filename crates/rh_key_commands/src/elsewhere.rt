//! What other tools call the commands.

/// What `rhkeys` calls the command that other tools call by this word, where it does not call one
/// so itself. The answer may be a command of `rhpack`, to which the launcher hands it on.
pub fn meant(word: &str) -> Option<&'static str> {
    match word {
        "intersection" | "inter" | "and" | "common" | "comm" | "both" => Some("intersect"),
        "or" | "unite" | "merge" | "sort" | "uniq" => Some("union"),
        "difference" | "diff" | "minus" | "sub" | "except" | "without" | "not" => Some("subtract"),
        "symmetric-difference" | "symdiff" => Some("xor"),
        "at-least" | "threshold" | "majority" => Some("atleast"),
        "where" | "expression" | "expr" | "eval" | "query" => Some("select"),
        "validate" | "verify" | "lint" => Some("check"),
        "unpack" | "cat" | "dump" => Some("list"),
        "version" => Some("--version"),
        _ => None,
    }
}
