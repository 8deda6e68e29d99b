// Laws of documents and their lines, which hold of the definitions alone.
ghost use Rattle.std.specs.Prelude.{◌≡◌, ◌≤◌, ◌+◌, ◌++◌, ◌∷◌, ℕ, List, Ok};
ghost use Rattle.std.specs.Str.Lines.{strip_carriage_return};
ghost use Rattle.spec_lines.specs.Lines.{HasNoNewline, ended_lines, head_of};
ghost use Rattle.spec_document.specs.Forest.{Forest, Document, Plain, IsNormal, lines_of, size};
ghost use Rattle.spec_document.specs.declared.parent.Parent.{Parent};
ghost use Rattle.spec_document.specs.Document.{document_of, nodes_of};
ghost use Rattle.spec_document.specs.Scope.{Scope, root_scope};
ghost use Rattle.spec_document.specs.Numbering.{number_limit};
ghost use Rattle.spec_edit.specs.Edit.{Edit, Edited, edited_nodes};
ghost use Rattle.spec_edit.specs.Valid.{IsValid};
ghost use Rattle.spec_move.specs.Move.{moved_nodes};
ghost use Rattle.spec_session.specs.declared.kinds.LineKind.TheVariants.{WithBody};
ghost use Rattle.spec_session.specs.Command.{Command, after, kind_of, session_of};
ghost use Rattle.spec_session.specs.Request.{DocumentName};
ghost use Rattle.spec_session.specs.Reply.{Reply, Shown, reply_bytes};
ghost use Rattle.spec_session.specs.Machine.{State, initial, edited_documents, accepted, with_document, answer_to, Run};
ghost use Rattle.spec_afresh.specs.Afresh.{IsHeldIn, body_of, document_from, given_as};
ghost use Rattle.spec_afresh.specs.Characters.{HasChars};

/// What is read is made of XML Chars: a line with any other character is no event.
pub fn characters_are_read()
    ensures { (scope : Scope) (first : ℕ) (body : List (List ℕ)) (document : Document ℕ) → document_of scope first body ≡ Ok document
        → HasChars document.nodes }
{}

/// So are siblings that are read.
pub fn siblings_are_read_with_characters()
    ensures { (scope : Scope) (first : ℕ) (parent : Parent) (body : List (List ℕ)) (nodes : Forest ℕ) → nodes_of scope first parent body ≡ Ok nodes
        → HasChars nodes }
{}

/// Where a document is made of XML Chars, so is it after an edit.
pub fn edits_keep_characters()
    ensures { (first : ℕ) (edit : Edit) (document : Document ℕ) (new : Edited ℕ) → edited_nodes first edit document ≡ Ok new
        → HasChars document.nodes → HasChars new.nodes }
{}

/// So is it after a move.
pub fn moves_keep_characters()
    ensures { (first : ℕ) (path other : List ℕ) (document : Document ℕ) (new : Edited ℕ) → moved_nodes first path other document ≡ Ok new
        → HasChars document.nodes → HasChars new.nodes }
{}

/// A document without faults that is as events make it, of XML Chars, is the document of the lines that are written for
/// it, with every first number that leaves room for the others.
pub fn lines_make_their_document()
    ensures { (first : ℕ) (tree : Plain) → IsValid tree → IsNormal tree → HasChars tree → first + 1 + size tree ≤ number_limit
        → document_of root_scope first (body_of tree) ≡ Ok (document_from first tree) }
{}

/// In every state that a session comes to, each document that is held, the source or a module, present or pending, is
/// the document of the lines that `dump` writes for it. There is room for its numbers in a new session.
pub fn held_documents_are_those_of_their_lines()
    ensures afresh { (commands : List Command) (replies : List Reply) (state : State) → Run initial commands replies state
        → (name : DocumentName) (tree : Plain) → IsHeldIn state name tree → (first : ℕ) → first + 1 + size tree ≤ number_limit
        → document_of root_scope first (body_of tree) ≡ Ok (document_from first tree) }
    ensures room { (commands : List Command) (replies : List Reply) (state : State) → Run initial commands replies state
        → (name : DocumentName) (tree : Plain) → IsHeldIn state name tree → 1 + size tree ≤ number_limit }
{}

/// Given these lines as its body, a session that has room for the nodes holds that document, under whichever name: it
/// is pending there while a batch is open, else present.
pub fn held_documents_can_be_given_again()
    ensures { (commands : List Command) (replies : List Reply) (state : State) → Run initial commands replies state
        → (name : DocumentName) (tree : Plain) → IsHeldIn state name tree
        → (old : State) (other : DocumentName) → old.made + 1 + size tree ≤ number_limit
        → answer_to old (given_as other (body_of tree)) ≡ accepted old (with_document other tree (edited_documents old)) (old.made + 1 + size tree) }
{}

/// What `dump` writes, behind the line of a command that has a body, is the body of that command, whatever follows.
pub fn dumped_lines_are_a_body()
    ensures { (commands : List Command) (replies : List Reply) (state : State) → Run initial commands replies state
        → (name : DocumentName) (tree : Plain) → IsHeldIn state name tree
        → (line rest : List ℕ) → HasNoNewline line → strip_carriage_return line ≡ line → kind_of (head_of line) ≡ WithBody
        → session_of (ended_lines (line ++ 0xA ∷ (reply_bytes (Shown (lines_of tree)) ++ rest)))
        ≡ after (record { line = line; body = body_of tree }) (session_of (ended_lines rest)) }
{}
