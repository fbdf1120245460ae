//! What stands in a query, and what is so of its parts.

ghost use Rattle.std.specs.Prelude.{◌≡◌, ◌≤◌, ◌+◌, ◌*◌, ℕ, false, length};
ghost use Rattle.mt_text_spec.specs.Registries.{Registry};
ghost use Rattle.mt_text_spec.specs.Queries.{Expr, Filters, Query};
ghost use Rattle.mt_query_spec.specs.Trees.{QueryTree, query_tokens};
ghost use Rattle.mt_query_spec.specs.Meaning.{query_of};
ghost use Rattle.mt_query_spec.specs.Measures.{expr_size, filter_nodes, nodes};
ghost use Rattle.mt_query_spec.specs.Valid.{ValidQuery};
ghost use Rattle.mt_query_spec.specs.Contents.{token_tests, tags, patterns, written_patterns, operands, IsPart, AreParts};

/// The head of a valid query and each of its operands are in order, whatever the registry, and no greater than a query may be.
pub fn parts_are_small()
    ensures head { (registry : Registry) (query : Query) → ValidQuery registry query → IsPart query.head }
    ensures operands { (registry : Registry) (query : Query) → ValidQuery registry query → AreParts query.filters }
{}

/// The patterns of a query stand in it in the order in which its text writes them.
pub fn patterns_as_written()
    ensures { (registry : Registry) (default : ℕ) (part : QueryTree) → patterns (query_of registry default part) ≡ written_patterns false (query_tokens part) }
{}

/// How many tests, tags, patterns and operands there are at most: an operand counts as two nodes at least, its filter and its expression.
pub fn contents_are_few()
    ensures tests { (expr : Expr) → length (token_tests expr) + length (tags expr) ≤ expr_size expr }
    ensures patterns { (query : Query) → length (patterns query) ≤ nodes query }
    ensures operands { (filters : Filters) → 2 * length (operands filters) ≤ filter_nodes filters }
{}
