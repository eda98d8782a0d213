use hwp_core_rule::Body;

/// Lets the body go that a step met. Each way out of a function that lets it go itself proves anew how it goes.
pub fn let_go_of(_body: Option<Body>) {}
