//! Laws: nothing of an answer is lost, and each object is one of JSON.
ghost use Rattle.std.specs.Prelude.{◌≡◌, List, Some, [], ◌∷◌, ◌++◌};
ghost use Rattle.hex.specs.Hex.{IsBytes};
ghost use Rattle.json.specs.Json.{document};
ghost use Rattle.json.specs.Print.{print};
ghost use Rattle.json.specs.Tree.{json_tokens};
ghost use Rattle.texts.specs.Lines.{line_feed};
ghost use Rattle.json_lines.specs.Kept.{IsOneLine, TellsOf};
ghost use Rattle.json_lines.specs.Kinds.{Kinds};
ghost use Rattle.json_lines.specs.Lines.{Group, Text, all_lines, ended, groups_of, lines_of};
ghost use Rattle.json_lines.specs.Objects.{group_object};
ghost use Rattle.json_lines.specs.Shapes.{Shape, row_of};

/// From what is told of a line the line can be written again. It is written from the shape of that kind with these members, or
/// from the member that has the line or its bytes.
pub fn lines_are_kept()
    ensures { (shapes : List Shape) (line : Text) → IsBytes line → TellsOf shapes line (row_of shapes line) }
{}

/// The groups of an answer have its lines, in order, and these are its text. Behind a last line that no line feed ends, one is added.
pub fn answers_are_kept()
    ensures lines { (lines : List Text) → all_lines (groups_of lines) ≡ lines }
    ensures text { (text : Text) → ended (lines_of (text ++ line_feed ∷ [])) ≡ text ++ line_feed ∷ [] }
{}

/// What is written of a line and its details is one line, the text of its object (RFC 8259).
pub fn objects_are_read()
    ensures one_line { (kinds : Kinds) (group : Group) → IsOneLine (print (json_tokens (group_object kinds group))) }
    ensures read { (kinds : Kinds) (group : Group) → document (print (json_tokens (group_object kinds group))) ≡ Some (group_object kinds group) }
{}
