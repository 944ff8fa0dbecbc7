//! Laws of the texts. Each function does nothing: what it ensures holds of the definitions
//! themselves, and its proof is the law's.

ghost use Rattle.std.specs.Prelude.{◌≡◌, ◌≢◌, ℕ, List, Some, None, codes, if◌then◌else◌, is_some, true};
ghost use Rattle.serde_json.specs.Data.{Members, boolean, object};
ghost use Rattle.serde_json.specs.Find.{get_member};
ghost use Rattle.serde_json.specs.Written.{compact_text};
ghost use Rattle.registry_packument.specs.Abbreviated.{has_unsaid_value, is_install_key, members_of_form};
ghost use Rattle.registry_packument.specs.Documents.{IsCompact, document_members, document_text};
ghost use Rattle.registry_packument.specs.FormLaws.{in_form, keys_of};
ghost use Rattle.registry_packument.specs.Packuments.{AreDocumentsOf, members_of_pack, pack_text, pack_value};
ghost use Rattle.registry_packument.specs.Heads.{HeadParts};
ghost use Rattle.registry_packument.specs.declared.form.PackForm.TheVariants.{Full, Abbreviated};
ghost use Rattle.registry_packument.specs.declared.packument.VersionRow.{VersionRow};

/// Where a manifest is the compact JSON of an object, its document is that of the object with the
/// message put in.
pub fn documents_are_json()
    ensures { (manifest message : List ℕ) (ms : Members) → IsCompact ms manifest
        → document_text manifest message
        ≡ Some (compact_text (object (document_members ms message))) }
{}

/// Where each manifest is the compact JSON of an object, a packument of either form is that of its
/// value.
pub fn packuments_are_json()
    ensures { (head : HeadParts) (versions : List VersionRow) (documents : Members)
        → AreDocumentsOf head.form versions documents
        → pack_text head versions ≡ Some (compact_text (pack_value head documents)) }
{}

/// An abbreviated packument is there exactly where the full one is, and has its name, its tags and
/// its versions.
pub fn abbreviated_packuments_leave_out_no_version()
    ensures there { (head : HeadParts) (versions : List VersionRow)
        → is_some (pack_text (in_form Abbreviated head) versions)
        ≡ is_some (pack_text (in_form Full head) versions) }
    ensures name { (head : HeadParts) (full short : Members)
        → get_member (codes "name") (members_of_pack Abbreviated head short)
        ≡ get_member (codes "name") (members_of_pack Full head full) }
    ensures tags { (head : HeadParts) (full short : Members)
        → get_member (codes "dist-tags") (members_of_pack Abbreviated head short)
        ≡ get_member (codes "dist-tags") (members_of_pack Full head full) }
    ensures versions { (rows : List VersionRow) (full short : Members)
        → AreDocumentsOf Full rows full → AreDocumentsOf Abbreviated rows short
        → keys_of short ≡ keys_of full }
{}

/// What a version's document has in an abbreviated packument is the whole document's own, and
/// nothing that an install reads is left out. `hasInstallScript` alone may be added: it is true
/// where the document doesn't say it and has a script that an install runs.
pub fn abbreviated_documents_have_what_an_install_reads()
    ensures own { (ms : Members) (message key : List ℕ) → key ≢ codes "hasInstallScript"
        → get_member key (members_of_form Abbreviated ms message)
        ≡ (if is_install_key key then get_member key (members_of_form Full ms message)
        else None) }
    ensures script { (ms : Members) (message : List ℕ)
        → get_member (codes "hasInstallScript") (members_of_form Abbreviated ms message)
        ≡ (if has_unsaid_value (members_of_form Full ms message) then Some (boolean true)
        else get_member (codes "hasInstallScript") (members_of_form Full ms message)) }
{}
