//! Laws of nodes.
ghost use Rattle.std.specs.Prelude.{◌≡◌, List, Some};
ghost use Rattle.ae_core.specs.Sorts.{head_sort};
ghost use Rattle.ae_core.specs.declared.problems.Signature.{Signature};
ghost use Rattle.ae_core.specs.declared.terms.Head.{Head};
ghost use Rattle.ae_core.specs.declared.terms.Sort.{Sort};
ghost use Rattle.ae_store.specs.Terms.{node_sort};

/// The sort that a node of an application has is that of the application, where it is well sorted.
pub fn nodes_have_their_terms_sorts()
    ensures { (sig : Signature) (h : Head) (ss args : List Sort) (s : Sort) → head_sort sig h ss args ≡ Some s → node_sort sig h ss ≡ s }
{}
