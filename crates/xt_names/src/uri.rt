// The namespace URIs that the standards fix.

/// The URI of the prefix `xml`, which always stands for it (Namespaces in XML 1.0, section 3).
pub const XML_URI: &str = "http://www.w3.org/XML/1998/namespace";

/// The URI of the prefix `xmlns`, which no declaration may name (Namespaces in XML 1.0, section 3).
pub const XMLNS_URI: &str = "http://www.w3.org/2000/xmlns/";

/// The URI of the elements of a stylesheet (XSLT 1.0, section 2.1).
pub const XSLT_URI: &str = "http://www.w3.org/1999/XSL/Transform";
