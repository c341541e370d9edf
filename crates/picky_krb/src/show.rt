//! Values as text and as JSON: tokens, pages, and octets of any kind as pages. The original has no such module.

pub use krb_input::{InputError, octets_of_input};
pub use krb_show::{
    Field, Form, Label, NoFormats, Page, Place, Plain, Role, Secrets, Show, ShowFields,
    ShowsFormats, Tells, Token, Walk, page_of_octets, page_of_tree, place_tokens, places_by_row,
    places_of_items, push_items, push_items_with_places, show_by_row, show_identifier, show_list,
    show_number, show_octets, show_opened, show_struct, show_text, show_word, tag_name, walk_named,
};
pub use krb_show_any::{
    Everything, Kind, PageError, Pages, broken_rules_of, json_with_places, kind_of_name,
    kind_of_octets, name_of_kind, page_with_places, page_with_unchecked, page_with_warnings,
    place_of_error, warning_of,
};
pub use krb_show_messages::{
    HasRow, KerberosFormats, Message, RowField, items_by_row, page_by_row, page_of_pac,
    places_of_pac, show_pac, show_value,
};
pub use krb_show_negoex::{page_of_negoex, places_of_negoex};
pub use krb_show_pages::{
    FilePageError, name_of_tag, page_of_application, page_of_ccache, page_of_keytab,
    page_of_message, page_of_part, page_of_type, places_of_ccache, places_of_keytab, tag_of_name,
    type_of_name,
};
pub use krb_show_text::{
    json_of_page, json_of_page_with_places, text_of_page, text_of_page_with_places,
};
pub use krb_show_tokens::kpasswd::{
    PasswordFrameError, page_of_password_frame, places_of_password_frame,
};
pub use krb_show_tokens::{GssToken, page_of_token, places_of_token};
